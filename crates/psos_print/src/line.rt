// The line of an answered request.
ghost use Rattle.std.specs.Prelude.{◌≡◌, ◌≤◌, ◌+◌, ◌∷◌, ◌++◌, decimal, length, OnOk, OnErr};
ghost use Rattle.psos_text.specs.Name.{name_text};
ghost use Rattle.psos_calls.specs.declared.reply.Reply.TheVariants as replies;
ghost use Rattle.psos_model.specs.Text.Transcript.{place_text, answer_text, line_text};
ghost use Rattle.psos_print.specs.Line.{answered_in};

use crate::lengths::line_len;
use crate::name::text_of;
use crate::reply::{prepend_reply, put_names};
use crate::tail::Tail;
use psos_calls::{Line, Reply};
use psos_text::Name;
use std::alloc::{AllocError, Global};

#[tactic(auto, using(std::proofs::lemmas::List::append_assoc))]
fn prepend_place(line: &mut Tail, n: u16, m: u16)
    requires { length line.old + 41 ≤ 128 }
    ensures text { line.new ≡ place_text n m ++ line.old }
    ensures few { length line.new ≤ length line.old + 41 }
{
    if m == 0 {
        line.prepend_number(u64::from(n));
        return;
    }
    line.prepend_number(u64::from(m));
    line.prepend_byte(b'/');
    line.prepend_number(u64::from(n));
}

// What stands before the reply: the user's name, the place and the stamp.
fn prepend_head(line: &mut Tail, name: &[u8], n: u16, m: u16, stamp: u64)
    requires name { length name.now ≤ 16 }
    requires room { length line.old + 81 ≤ 128 }
    ensures { line.new ≡ name.now ++ 32 ∷ (place_text n m ++ 32 ∷ 64 ∷ (decimal stamp ++ 32 ∷ line.old)) }
{
    line.prepend_byte(b' ');
    line.prepend_number(stamp);
    line.prepend_byte(b'@');
    line.prepend_byte(b' ');
    prepend_place(line, n, m);
    line.prepend_byte(b' ');
    line.prepend(name);
}

// The line of a listing, which may be long. After a refusal a piece of it may stand in `out`.
#[tactic(auto, using(std::proofs::lemmas::List::append_assoc))]
fn put_listing(
    out: &mut Vec<u8>,
    name: &[u8],
    n: u16,
    m: u16,
    stamp: u64,
    names: &[Name],
) -> Result<(), AllocError>
    requires { length name.now ≤ 16 }
    ensures { OnOk result (out.new.items ≡ out.old.items ++ (name.now ++ 32 ∷ (place_text n m ++ answer_text stamp (replies.Names names.now)))) }
{
    let mut head = Tail::new();
    prepend_head(&mut head, name, n, m, stamp);
    out.extend_from_slice(head.as_bytes())?;
    out.extend_from_slice(b"names")?;
    put_names(out, names)?;
    out.extend_from_slice(b"\n")
}

// A line of these parts. After a refusal a piece of it may stand in `out`.
#[tactic(auto, using(std::proofs::lemmas::List::append_assoc))]
pub(crate) fn put_parts(
    out: &mut Vec<u8>,
    name: &[u8],
    n: u16,
    m: u16,
    stamp: u64,
    reply: &Reply,
) -> Result<(), AllocError>
    requires { length name.now ≤ 16 }
    ensures { OnOk result (out.new.items ≡ out.old.items ++ (name.now ++ 32 ∷ (place_text n m ++ answer_text stamp reply.now))) }
{
    if let Reply::Names(names) = reply {
        return put_listing(out, name, n, m, stamp, names.as_slice());
    }
    let mut line = Tail::new();
    line.prepend_byte(b'\n');
    prepend_reply(&mut line, reply);
    prepend_head(&mut line, name, n, m, stamp);
    out.extend_from_slice(line.as_bytes())
}

/// Appends a line as it is printed, with its end of line: the user's name, the place, the stamp and the reply. The
/// name is that of the line's user. `Err` only where memory runs out, and then `out` holds what it held.
///
/// A line stands by itself so: the program psos_compare prints the lines of the plain program with it. The lines of a
/// run go by `put_transcript`, which writes them in pieces.
pub fn put_line(
    alloc: Global,
    out: &mut Vec<u8>,
    name: &Name,
    line: &Line,
) -> Result<(), AllocError>
    ensures ok { OnOk result (out.new.items ≡ out.old.items ++ line_text (name_text name.now) line.now.stamp (answered_in line.now)) }
    ensures err { OnErr result (out.new.items ≡ out.old.items) }
{
    let mut text = Vec::with_capacity(alloc, line_len(name, line))?;
    let stamp = u64::from(line.stamp);
    put_parts(&mut text, text_of(name), line.n, line.m, stamp, &line.reply)?;
    out.extend_from_slice(&text)
}
