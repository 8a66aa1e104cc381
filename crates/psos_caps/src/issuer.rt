// Hands out identifiers, each once.
ghost use Rattle.std.specs.Prelude.{◌≡◌, ◌+◌, ◌-◌, ◌<◌, ◌^◌};
ghost use Rattle.psos_caps.specs.Capability.{full};

use crate::{Cap, Uid};
use std::marker::Model;

/// The next identifier that was never handed out. It is seen as that number.
#[derive(Drop)]
pub struct Issuer {
    next: u64,
}

impl Model for Issuer {
    ghost use Rattle.std.specs.Prelude.{ℕ};

    ghost Value = { ℕ };

    ghost view = { λ i. i.next };
}

impl Issuer {
    /// An issuer that begins with this identifier.
    pub fn new(next: Uid) -> Issuer
        ensures { result ≡ next.0 }
    {
        Issuer { next: next.0 }
    }

    /// The identifier that comes next.
    pub fn next(&self) -> Uid
        ensures { result.0 ≡ self.now }
    {
        Uid(self.next)
    }

    /// A capability with all rights on what was never named before.
    pub fn fresh(&mut self) -> Cap
        requires { self.old < 2 ^ 64 - 1 }
        ensures cap { result ≡ full self.old }
        ensures next { self.new ≡ self.old + 1 }
    {
        let cap = Cap::full(Uid(self.next));
        self.next += 1;
        cap
    }
}
