// A user of a run of threads.
ghost use Rattle.std.specs.Prelude.{◌≡◌};
ghost use Rattle.psos_locks.specs.Users.{has_more, IsAhead};

use crate::own::Own;
use crate::run::Run;
use psos_calls::Script;
use std::marker::Model;

/// A user: its own part with what it knows, whether it is halted, and how many phases it was served in
/// (docs/levels.md, "Phases").
#[derive(Drop)]
pub struct UserState<T: Run> {
    pub(crate) own: Own<T>,
    pub(crate) halted: bool,
    pub(crate) served: u64,
}

impl<T: Run> Model for UserState<T> {
    ghost use Rattle.psos_locks.specs.Users.{UserView};

    ghost Value = { UserView };

    ghost view = { λ u. record { who = u.own; halted = u.halted; served = u.served } };
}

impl<T: Run> UserState<T> {
    /// Whether the user has an open body, or asks anything more of its own phase.
    pub fn left(&self, script: &Script) -> bool
        requires { script.now ≡ T.script }
        ensures more { result ≡ has_more T.script self.now.who }
        ensures ahead { IsAhead T.script self.now.who }
    {
        self.own.has_more(script)
    }

    /// Whether a request of the user was stopped.
    pub fn halted(&self) -> bool
        ensures { result ≡ self.now.halted }
    {
        self.halted
    }

    /// Whether it was told that a store fault stopped the run.
    pub fn told(&self) -> bool
        ensures { result ≡ self.now.who.side.told }
    {
        self.own.member.told()
    }
}
