// How long a line is.
ghost use Rattle.std.specs.Prelude.{◌≡◌, ◌≤◌, ◌<◌, ◌+◌, ◌*◌, ◌^◌, decimal, length};
ghost use Rattle.psos_text.specs.Name.{name_text};
ghost use Rattle.psos_model.specs.Text.Transcript.{names_text, refusal_text, reply_text, place_text, line_text};
ghost use Rattle.psos_print.specs.Line.{answered_in};

use crate::name::text_of;
use crate::refusal::{kind_word, right_word, tab_word};
use itoa::Buffer;
use psos_calls::{Line, Refusal, Reply};
use psos_text::Name;

fn number_len(n: u64) -> usize
    ensures value { result ≡ length (decimal n) }
    ensures few { result ≤ 20 }
{
    let mut buffer = Buffer::new();
    buffer.format(n).len()
}

fn name_len(name: Name) -> usize
    ensures value { result ≡ length (name_text name) }
    ensures few { result ≤ 16 }
{
    text_of(&name).len()
}

fn names_len(names: &[Name]) -> usize
    ensures value { result ≡ length (names_text names.now) }
    ensures few { result ≤ 17 * length names.now }
    ensures least { 16 * length names.now < 2 ^ 63 }
{
    let mut total = 0;
    'names: for name in names {
        total += 1 + name_len(*name);
    }
    total
}

fn refusal_len(refusal: Refusal) -> usize
    ensures value { result ≡ length (refusal_text refusal) }
    ensures few { result ≤ 40 }
{
    match refusal {
        Refusal::Absent(kind) => 7 + kind_word(kind).len(),
        Refusal::Lacks(right) => 6 + right_word(right).len(),
        Refusal::Guarded(bit) => 8 + number_len(u64::from(bit)),
        Refusal::Exhausted(tab) => 10 + tab_word(tab).len(),
        Refusal::NotCap => 7,
        Refusal::NotData => 8,
        Refusal::Range => 5,
        Refusal::NameTaken => 10,
        Refusal::UnknownName => 12,
        Refusal::Distinguished => 13,
        Refusal::NotDistinguished => 17,
        Refusal::NotEmpty => 9,
        Refusal::Empty => 5,
        Refusal::WrongType => 10,
        Refusal::Overflow => 8,
    }
}

// Fewer than 2^63 + 2^59 bytes for each list of names that memory holds.
fn reply_len(reply: &Reply) -> usize
    ensures value { result ≡ length (reply_text reply.now) }
    ensures few { result ≤ 2 ^ 63 + 2 ^ 60 }
{
    match reply {
        Reply::Fine => 2,
        Reply::Data(n) => 5 + number_len(*n),
        Reply::Cap(cap) => 9 + number_len(cap.uid().0),
        Reply::Names(names) => 5 + names_len(names.as_slice()),
        Reply::No(refusal) => 3 + refusal_len(*refusal),
    }
}

fn place_len(n: u16, m: u16) -> usize
    ensures value { result ≡ length (place_text n m) }
    ensures few { result ≤ 41 }
{
    let before = number_len(u64::from(n));
    if m == 0 {
        return before;
    }
    before + 1 + number_len(u64::from(m))
}

/// How many bytes a line has as it is printed, with its end of line: what `put_line` appends for the same name and
/// line, and for which it takes memory before all else. It takes none itself.
pub fn line_len(name: &Name, line: &Line) -> usize
    ensures { result ≡ length (line_text (name_text name.now) line.now.stamp (answered_in line.now)) }
{
    let place = name_len(*name) + 1 + place_len(line.n, line.m);
    place + 2 + number_len(u64::from(line.stamp)) + 1 + reply_len(&line.reply) + 1
}
