// How a plan closes.
ghost use Rattle.std.specs.Prelude.{◌≡◌};
ghost use Rattle.psos_calls.specs.Plan.{if_done};
ghost use Rattle.psos_calls.specs.Plan.Parts.{fine as it_is_done};
ghost use Rattle.psos_calls.specs.Plan.Trace.{next_of};

use psos_calls::close::{fine, refuse};
use psos_calls::{LevelAnswer, Next, Sheet};

/// After the last call: it was done, or refused.
pub(crate) fn done(answer: &LevelAnswer<Sheet<'_>>) -> Next
    ensures { result ≡ next_of (if_done answer.now it_is_done) }
{
    match answer {
        LevelAnswer::No(refusal) => refuse(*refusal),
        _ => fine(),
    }
}
