// Runs of the plain program in an order that is given.
ghost use Rattle.std.specs.Prelude.{IfOk};
ghost use Rattle.psos_calls.specs.Language.Script.{IsWellFormed};
ghost use Rattle.psos_model.specs.Flat.Boot.{boot};
ghost use Rattle.psos_model.specs.Run.{IsLegalFrom};
ghost use Rattle.psos_rows.specs.Lines.{AreLinesOf};
ghost use Rattle.psos_rows.specs.Fronts.{legal_front};

use crate::line::next_line;
use psos_calls::{Line, Script};
use psos_model::Flat;
use std::alloc::{AllocError, Global};

/// The next requests of these users of a script, one after another, answered by the plain program from boot
/// (docs/promises.md, "Runs"). A legal order is run whole; else the run ends where a user comes that has no request
/// left, also one that the script does not have. The lines are in the order of the answers, stamped from 0. `Err` only
/// where memory runs out.
pub fn order_lines(alloc: Global, script: &Script, order: &[u8]) -> Result<Vec<Line>, AllocError>
    requires { IsWellFormed script.now }
    ensures front { IfOk result (λ lines. AreLinesOf script.now (legal_front script.now (boot script.now) order.now) lines.items) }
    ensures whole { IfOk result (λ lines. IsLegalFrom script.now (boot script.now) order.now → AreLinesOf script.now order.now lines.items) }
{
    let mut flat = Flat::boot(alloc, script)?;
    let mut lines = Vec::new(alloc);
    'users: for user in order {
        if !flat.left(script, *user) {
            return Ok(lines);
        }
        let stamp = lines.len() as u32;
        lines.push(next_line(alloc, script, &mut flat, *user, stamp)?)?;
    }
    Ok(lines)
}
