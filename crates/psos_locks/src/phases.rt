// All phases of a run of threads.
ghost use Rattle.std.specs.Prelude.{◌≡◌};
ghost use Rattle.psos_calls.specs.Language.Script.{IsWellFormed};
ghost use Rattle.psos_locks.specs.Users.{AreNewUsers, AreUsers, AreOver};
ghost use Rattle.psos_locks.specs.Stages.{AreBefore, AreServed, are_going};

use crate::locks::Locks;
use crate::meet::meet;
use crate::run::Run;
use crate::scene::Scene;
use crate::user::UserState;
use psos_calls::Script;
use psos_core::phases_of;
use psos_io::{Gate, Store};
use psos_users::one_phase;
use std::alloc::Global;
use std::marker::{Send, Sync};
use std::sync::Wait;
use std::thread::Threads;

// Whether nobody is halted.
fn are_going<T: Run>(users: &[UserState<T>]) -> bool
    ensures { result ≡ are_going users.now }
{
    'users: for user in users {
        if user.halted() {
            return false;
        }
    }
    true
}

// All users go to phase p, where they have met if they come from another one.
fn begin<T: Run>(users: &mut [UserState<T>], p: u32)
    requires { AreServed T.script p users.old }
    ensures { AreBefore T.script p users.new }
{
    if 0 < p {
        meet(users, p);
    }
}

/// Runs all phases of a script's users, each phase in at most as many threads as there are users, the caller's among them;
/// behind each phase but the last all users meet. Behind a phase in which a request was stopped there is none. Where nobody
/// is halted, all requests are made. It may wait (docs/levels.md, "Phases").
pub fn run_phases<T: Run + Send, B: Store + Send, R: Threads + Wait + Sync, G: Gate + Sync>(
    rt: &R,
    alloc: Global,
    locks: &Locks<T, B>,
    script: &Script,
    users: &mut [UserState<T>],
    gate: &G,
)
    requires script { script.now ≡ T.script }
    requires well_formed { IsWellFormed T.script }
    requires new { AreNewUsers T.script users.old }
    ensures users { AreUsers T.script users.new }
    ensures over { AreOver T.script users.new }
{
    let phases = phases_of(script.users()) as u32;
    let scene = Scene {
        rt,
        alloc,
        locks,
        script,
        gate,
    };
    'phases: for p in 0..phases {
        begin(users, p);
        one_phase(rt, &scene, users, p);
        if !are_going(users) {
            return;
        }
    }
}
