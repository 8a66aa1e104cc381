// The next request of a user.
ghost use Rattle.std.specs.Prelude.{◌≡◌, ◌≤◌, false, length, is_err, IfOk, IfErr, IsTrue};
ghost use Rattle.psos_limits.specs.declared.TheConstants.{MOST_REQUESTS};
ghost use Rattle.psos_calls.specs.Language.Script.{IsWellFormed};
ghost use Rattle.psos_journal.specs.Views.{list_of};
ghost use Rattle.psos_locks.specs.Users.{has_more, HasClosed, HasStopped};

use crate::locks::Locks;
use crate::request::serve;
use crate::run::Run;
use crate::user::UserState;
use psos_calls::Script;
use psos_io::{Gate, Store};
use psos_journal::StopCause;
use std::alloc::Global;
use std::sync::Wait;

/// Makes the next request of a user that has one left in its phase, and tells the gate when its locks are free. The stamp
/// of its entry, which comes last in the user's list; the reply stands in the entry. `Err` with the first cause for which
/// the run was stopped, here or by another user: no entry was added, the user is halted, and the levels that the request
/// called stay broken. A user has few entries at every time. It may wait for other users (docs/levels.md, "Locks" and
/// "Journal").
pub fn perform<T: Run, B: Store, R: Wait, G: Gate>(
    rt: &R,
    alloc: Global,
    locks: &Locks<T, B>,
    script: &Script,
    user: &mut UserState<T>,
    gate: &G,
) -> Result<u32, StopCause>
    requires script { script.now ≡ T.script }
    requires well_formed { IsWellFormed T.script }
    requires left { IsTrue (has_more T.script user.old.who) }
    requires going { user.old.halted ≡ false }
    ensures closed { IfOk result (λ stamp. HasClosed user.old.who stamp user.new.who) }
    ensures stopped { IfErr result (λ cause. HasStopped user.old.who cause user.new.who) }
    ensures halted { user.new.halted ≡ is_err result }
    ensures served { user.new.served ≡ user.old.served }
    ensures few { length (list_of user.old.who.side) ≤ MOST_REQUESTS }
{
    let request = user.own.next_request(script);
    match serve(rt, alloc, locks, script, &mut user.own, &request, gate) {
        Ok(stamp) => {
            gate.closed(user.own.number());
            Ok(stamp)
        }
        Err(cause) => {
            user.halted = true;
            Err(cause)
        }
    }
}
