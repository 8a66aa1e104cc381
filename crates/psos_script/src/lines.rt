// The lines of a script, one after another.
ghost use Rattle.std.specs.Prelude.{◌≡◌, ◌==◌, ◌<◌, ◌≤◌, length, option_map, IfSome};
ghost use Rattle.std.specs.List.{list_all, position_or_len};
ghost use Rattle.psos_text.specs.Lines.{words_of, lines_of};
ghost use Rattle.psos_model.specs.Text.Spelling.{is_printable as printable};
ghost use Rattle.psos_script.specs.Fault.{line_cause, words_cause, head_cause};
ghost use Rattle.psos_script.specs.Draft.{read, seen_in, Reads, taken, after_line, first_line, fault_after, read_after, nothing_read};
ghost use Rattle.psos_script.specs.Answers.{Finds};

use crate::cause::Cause;
use crate::draft::Draft;
use crate::fault::{ReadFault, ScriptFault};
use crate::head::Head;
use crate::line_fault::LineFault;
use crate::operands::next_word;
use std::alloc::{AllocError, Global};

// What all lines say, or the first fault of them.
pub(crate) fn read_lines(alloc: Global, bytes: &[u8]) -> Result<Draft, ReadFault>
    requires few { length bytes.now ≤ 1048576 }
    ensures { Finds (fault_after 1 nothing_read (lines_of bytes.now)) read (read_after nothing_read (lines_of bytes.now)) result }
{
    let mut draft = Draft::new(alloc);
    let mut rest = bytes;
    let mut number: u32 = 1;
    'lines: while let Some((text, after)) = next_line(rest) {
        match line(&mut draft, alloc, text) {
            Ok(()) => {}
            Err(LineFault::Memory) => {
                return Err(ReadFault::Memory(AllocError));
            }
            Err(LineFault::Cause(cause)) => {
                return Err(ReadFault::Script(ScriptFault {
                    line: number,
                    cause,
                }));
            }
        }
        number += 1;
        rest = after;
    }
    match draft.missing() {
        Some(cause) => Err(ReadFault::Script(ScriptFault {
            line: number,
            cause,
        })),
        None => Ok(draft),
    }
}

// One line more.
#[tactic(auto, unfolding(crate::specs::Fault::line_cause))]
fn line(draft: &mut Draft, alloc: Global, text: &[u8]) -> Result<(), LineFault>
    ensures { Reads (line_cause (seen_in (read draft.old)) text.now) (after_line (read draft.old) (words_of text.now)) result (read draft.new) }
{
    if text.len() > 200 {
        return Err(LineFault::Cause(Cause::LineTooLong));
    }
    if !all_printable(text) {
        return Err(LineFault::Cause(Cause::BadByte));
    }
    printable_line(draft, alloc, text)
}

// One line more, of few printable bytes.
#[tactic(auto, unfolding(crate::specs::Fault::words_cause))]
fn printable_line(draft: &mut Draft, alloc: Global, text: &[u8]) -> Result<(), LineFault>
    ensures { Reads (words_cause (seen_in (read draft.old)) (words_of text.now)) (after_line (read draft.old) (words_of text.now)) result (read draft.new) }
{
    let Some((word, rest)) = next_word(text) else {
        return Ok(());
    };
    if word.first() == Some(&b'#') {
        return Ok(());
    }
    match Head::of(word) {
        None => Err(LineFault::Cause(Cause::UnknownWord)),
        Some(head) => head_line(draft, alloc, head, rest),
    }
}

// One line more, behind its first word.
fn head_line(draft: &mut Draft, alloc: Global, head: Head, text: &[u8]) -> Result<(), LineFault>
    ensures { Reads (head_cause (seen_in (read draft.old)) head (words_of text.now)) (taken (read draft.old) head (words_of text.now)) result (read draft.new) }
{
    match head {
        Head::Code => draft.code_line(alloc, text),
        Head::End => draft.end_line(text),
        Head::User => draft.user_line(alloc, text),
        Head::Phase => draft.phase_line(alloc, text),
        Head::Asks(verb) => draft.request_line(verb, text),
    }
}

fn all_printable(text: &[u8]) -> bool
    ensures { result ≡ list_all printable text.now }
{
    text.iter().all(|b| is_printable(*b))
}

fn is_printable(b: u8) -> bool
    ensures { result ≡ printable b }
{
    32 <= b && b <= 126
}

// The first line, and what stands behind it.
fn next_line(text: &[u8]) -> Option<(&[u8], &[u8])>
    ensures lines { option_map (λ p. (p.0.now, lines_of p.1.now)) result ≡ first_line (lines_of text.now) }
    ensures shorter { IfSome result (λ p. length p.1.now < length text.now) }
{
    if text.is_empty() {
        return None;
    }
    let (front, rest) = text.split_at(line_feed(text));
    if rest.is_empty() {
        return Some((front, rest));
    }
    let (_, after) = rest.split_at(1);
    Some((front, after))
}

// Where the first line feed stands, or the length.
fn line_feed(text: &[u8]) -> usize
    ensures at { result ≡ position_or_len (λ b. b == 10) text.now }
    ensures within { result ≤ length text.now }
{
    'bytes: for (i, b) in text.iter().enumerate() {
        if *b == b'\n' {
            return i;
        }
    }
    text.len()
}
