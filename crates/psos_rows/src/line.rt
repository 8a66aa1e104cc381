// The plain program's answer to one request.
ghost use Rattle.std.specs.Prelude.{◌<◌, IsTrue, IfOk};
ghost use Rattle.psos_calls.specs.Language.Script.{IsWellFormed};
ghost use Rattle.psos_model.specs.Run.{has_left};
ghost use Rattle.psos_rows.specs.Running.{IsRunning, IsNext};

use psos_calls::{Line, Script};
use psos_model::Flat;
use std::alloc::{AllocError, Global};

/// The answer to the next request of a user that has one left, with this stamp.
pub(crate) fn next_line(
    alloc: Global,
    script: &Script,
    flat: &mut Flat,
    user: u8,
    stamp: u32,
) -> Result<Line, AllocError>
    requires script { IsWellFormed script.now }
    requires running { IsRunning script.now flat.old stamp }
    requires left { IsTrue (has_left script.now flat.old.users user) }
    requires few { stamp < 32768 }
    ensures { IfOk result (λ l. IsNext script.now flat.old user stamp flat.new l) }
{
    let answer = flat.step(alloc, script, user)?;
    Ok(Line {
        user,
        n: answer.n,
        m: answer.m,
        stamp,
        reply: answer.reply,
    })
}
