// The users' own parts.
ghost use Rattle.std.specs.Prelude.{◌≡◌, ◌<◌, ◌≤◌, [], ◌∷◌, ◌++◌, length, slice_get, slice_set, None, IfSome};
ghost use Rattle.std.specs.Option.{option_copied};
ghost use Rattle.psos_calls.specs.Language.User.{after, CanSettle};

use arrayvec::ArrayVec;
use psos_calls::{Effect, Private, Script};
use std::marker::Model;

/// The users' own parts, in the order of the script: at most eight. They are seen as their list.
#[derive(Drop)]
pub struct Users {
    list: ArrayVec<Private, 8>,
}

impl Model for Users {
    ghost use Rattle.std.specs.Prelude.{List};
    ghost use Rattle.psos_calls.specs.Language.User.{User};

    ghost Value = { List User };

    ghost view = { λ u. u.list.items };
}

impl Users {
    /// No user.
    pub fn new() -> Users
        ensures { result ≡ [] }
    {
        Users {
            list: ArrayVec::new(),
        }
    }

    /// How many there are.
    pub fn len(&self) -> usize
        ensures count { result ≡ length self.now }
        ensures few { result ≤ 8 }
    {
        self.list.len()
    }

    /// All of them, in order.
    pub fn as_slice(&self) -> &[Private]
        ensures { result.now ≡ self.now }
    {
        self.list.as_slice()
    }

    /// User u.
    pub fn get(&self, u: u8) -> Option<&Private>
        ensures { option_copied result ≡ slice_get self.now u }
    {
        self.list.as_slice().get(u as usize)
    }

    /// One more user at the end.
    pub fn push(&mut self, user: Private)
        requires { length self.old < 8 }
        ensures { self.new ≡ self.old ++ user ∷ [] }
    {
        self.list.push(user);
    }

    /// Makes the change of a request of user u that closes. Where there is no such user nothing changes.
    pub fn settle(&mut self, u: u8, effect: &Effect, script: &Script)
        requires { IfSome (slice_get self.old u) (λ x. CanSettle x effect.now) }
        ensures settled { IfSome (slice_get self.old u) (λ x. self.new ≡ slice_set self.old u (after script.now x effect.now)) }
        ensures nobody { slice_get self.old u ≡ None → self.new ≡ self.old }
    {
        if let Some(user) = self.list.get_mut(u as usize) {
            user.settle(effect, script);
        }
    }
}
