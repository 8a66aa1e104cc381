// Whole runs of the plain program.
ghost use Rattle.std.specs.Prelude.{◌≡◌, ℕ, false, IfNone, IfSome, IfOk};
ghost use Rattle.psos_calls.specs.Language.Script.{IsWellFormed};
ghost use Rattle.psos_model.specs.Run.{has_left};
ghost use Rattle.psos_model.specs.Run.SerialOrder.{IsFirst};
ghost use Rattle.psos_rows.specs.Serial.{IsSerialRun};

use crate::line::next_line;
use psos_calls::{Line, Script};
use psos_model::Flat;
use std::alloc::{AllocError, Global};

// The first user with a request left.
fn first_left(script: &Script, flat: &Flat) -> Option<u8>
    ensures none { IfNone result ((u : ℕ) → has_left script.now flat.now.users u ≡ false) }
    ensures some { IfSome result (λ u. IsFirst script.now flat.now.users u) }
{
    'users: for u in 0..flat.users.len() as u8 {
        if flat.left(script, u) {
            return Some(u);
        }
    }
    None
}

/// All requests of a script, answered by the plain program from boot (docs/promises.md, "Runs"). Always the first user
/// of the script that has a request left is next: phase by phase, in a phase user by user, and the lines of called
/// bodies one after another. The lines are in the order of the answers, stamped from 0. `Err` only where memory runs
/// out.
pub fn serial_lines(alloc: Global, script: &Script) -> Result<Vec<Line>, AllocError>
    requires { IsWellFormed script.now }
    ensures { IfOk result (λ lines. IsSerialRun script.now lines.items) }
{
    let mut flat = Flat::boot(alloc, script)?;
    let mut lines = Vec::new(alloc);
    'turns: for stamp in 0..32_768u32 {
        let Some(user) = first_left(script, &flat) else {
            return Ok(lines);
        };
        lines.push(next_line(alloc, script, &mut flat, user, stamp)?)?;
    }
    Ok(lines)
}
