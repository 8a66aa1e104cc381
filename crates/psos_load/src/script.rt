// The users of a script, each with its request lines.
ghost use Rattle.std.specs.Prelude.{◌≡◌, ◌≤◌, [], ◌∷◌, ◌++◌, codes, decimal, IfOk, OnOk};
ghost use Rattle.psos_limits.specs.declared.TheConstants.{MOST_LINES};
ghost use Rattle.psos_text.specs.Draws.{draws};
ghost use Rattle.psos_model.specs.Text.Load.{line_of, load_lines, load_text};
ghost use Rattle.psos_model.specs.Text.Spelling.{IsScript};
ghost use Rattle.psos_load.specs.Made.{made_script};

use crate::line::put_line;
use psos_sysproc::Turns;
use psos_text::put_number;
use std::alloc::{AllocError, Global};

/// The text of a script with so many users, each with so many request lines, from a seed (docs/program.md, "Load").
/// There are one to eight users, with 1 to 240 lines each. `Err` only where memory runs out.
pub fn script_text(alloc: Global, users: u8, lines: u16, seed: u64) -> Result<Vec<u8>, AllocError>
    requires some_users { 1 ≤ users }
    requires few_users { users ≤ 8 }
    requires some_lines { 1 ≤ lines }
    requires few_lines { lines ≤ MOST_LINES }
    ensures text { IfOk result (λ text. text.items ≡ load_text users lines seed) }
    ensures spells { IfOk result (λ text. IsScript text.items (made_script users lines seed)) }
{
    let mut turns = Turns::new(seed);
    let mut text = Vec::new(alloc);
    'users: for number in 0..users {
        put_user(alloc, &mut text, number, lines, &mut turns)?;
    }
    Ok(text)
}

// A user's line and its request lines.
#[tactic(auto, using(std::proofs::lemmas::List::append_assoc))]
fn put_user(
    alloc: Global,
    out: &mut Vec<u8>,
    number: u8,
    lines: u16,
    turns: &mut Turns,
) -> Result<(), AllocError>
    ensures text { OnOk result (out.new.items ≡ out.old.items ++ (line_of (codes "user u" ∷ decimal number ∷ []) ++ load_lines lines turns.old)) }
    ensures drawn { OnOk result (turns.new ≡ draws lines turns.old) }
{
    out.extend_from_slice(b"user u")?;
    put_number(alloc, out, u64::from(number))?;
    out.extend_from_slice(b"\n")?;
    put_lines(alloc, out, lines, turns)
}

// So many request lines.
fn put_lines(
    alloc: Global,
    out: &mut Vec<u8>,
    lines: u16,
    turns: &mut Turns,
) -> Result<(), AllocError>
    ensures text { OnOk result (out.new.items ≡ out.old.items ++ load_lines lines turns.old) }
    ensures drawn { OnOk result (turns.new ≡ draws lines turns.old) }
{
    'lines: for _number in 0..lines {
        put_line(alloc, out, turns.draw())?;
    }
    Ok(())
}
