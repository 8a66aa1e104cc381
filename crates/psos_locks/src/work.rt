// The work of a user in a phase.
ghost use Rattle.std.specs.Prelude.{◌≡◌};
ghost use Rattle.psos_calls.specs.Language.Script.{IsWellFormed};
ghost use Rattle.psos_locks.specs.Users.{WorkedOn};

use crate::locks::Locks;
use crate::performing::perform;
use crate::run::Run;
use crate::scene::Scene;
use crate::user::UserState;
use psos_calls::Script;
use psos_io::{Gate, Store};
use psos_users::Work;
use std::alloc::Global;
use std::marker::Send;
use std::sync::Wait;

// Makes the requests that are left to a user in its phase, one after another, until one of them is stopped. A user that is
// halted makes none.
fn perform_all<T: Run, B: Store, R: Wait, G: Gate>(
    rt: &R,
    alloc: Global,
    locks: &Locks<T, B>,
    script: &Script,
    user: &mut UserState<T>,
    gate: &G,
)
    requires script { script.now ≡ T.script }
    requires well_formed { IsWellFormed T.script }
    ensures worked { WorkedOn T.script user.old user.new }
    ensures served { user.new.served ≡ user.old.served }
{
    if user.halted() {
        return;
    }
    'requests: while user.left(script) {
        if perform(rt, alloc, locks, script, user, gate).is_err() {
            return;
        }
    }
}

/// In a phase a user makes its requests of that phase, one after another, until it has no open body and asks nothing more
/// of the phase, or a request is stopped. A user that is halted, or has nothing to ask there, makes none
/// (docs/levels.md, "Phases").
impl<'a, T: Run + Send, B: Store, R: Wait, G: Gate> Work<Scene<'a, T, B, R, G>> for UserState<T> {
    ghost next = { λ u. u.served };

    ghost stands = { λ before after. WorkedOn T.script before after };

    fn phase(&mut self, scene: &Scene<'a, T, B, R, G>, _phase: u32) {
        perform_all(
            scene.rt,
            scene.alloc,
            scene.locks,
            scene.script,
            self,
            scene.gate,
        );
        self.served += 1;
    }
}
