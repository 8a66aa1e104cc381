// The lines of a text.
ghost use Rattle.std.specs.Prelude.{◌≡◌, ◌≤◌, ◌&&◌, ◌==◌, length, is_some, IfOk};
ghost use Rattle.psos_calls.specs.Language.Script.{IsWellFormed};
ghost use Rattle.psos_check.specs.Reading.{done_in};
ghost use Rattle.psos_check.specs.Texts.{IsText};

use crate::cuts::cut;
use crate::done_line::done_line;
use crate::text::{MOST_TEXT, Text};
use crate::user_line::user_line;
use psos_calls::Script;
use std::alloc::{AllocError, Global};

/// What a text is, read as a transcript of the script: too long, or user lines and a done line, or else the first line
/// that is neither. `Err` only where memory runs out.
pub fn read_text(alloc: Global, script: &Script, text: &[u8]) -> Result<Text, AllocError>
    requires { IsWellFormed script.now }
    ensures { IfOk result (IsText script.now text.now) }
{
    if text.len() > MOST_TEXT {
        return Ok(Text::TooLong);
    }
    read_lines(alloc, script, text)
}

// What a text of few bytes is.
fn read_lines(alloc: Global, script: &Script, text: &[u8]) -> Result<Text, AllocError>
    requires script { IsWellFormed script.now }
    requires few { length text.now ≤ MOST_TEXT }
    ensures { IfOk result (IsText script.now text.now) }
{
    let mut said = Vec::new(alloc);
    let mut rest = text;
    let mut number: u32 = 1;
    'lines: while let Some((line, after)) = cut(b'\n', rest) {
        match user_line(script, line) {
            Some(stamped) => {
                if said.push(stamped).is_err() {
                    return Err(AllocError);
                }
            }
            None => {
                if ends(line, after) {
                    return Ok(Text::Read(said));
                }
                return Ok(Text::Line(number));
            }
        }
        number += 1;
        rest = after;
    }
    Ok(Text::Line(number))
}

// Whether the line is the done line, and nothing stands behind it.
fn ends(line: &[u8], after: &[u8]) -> bool
    ensures { result ≡ ((length after.now == 0) && is_some (done_in line.now)) }
{
    after.is_empty() && done_line(line).is_some()
}
