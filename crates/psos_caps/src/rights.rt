// Sixteen access rights.
ghost use Rattle.std.specs.Prelude.{⊤, ◌≡◌, [], ◌∷◌, codes};

use bitflags::{Flag, Flags};

/// A set of access rights: sixteen bits, bit 0 the lowest. Every bit is known, so each number below 2^16 is a set.
///
/// Bits 0, 1 and 2 are the store permissions. What the others allow goes by the kind of object (docs/system.md, "Rights").
#[derive(Clone, Copy, PartialEq, Eq, Debug)]
pub struct Rights(u16);

impl Rights {
    // One flag that has every bit, so that all of them are known.
    const FLAGS: &'static [Flag<Rights>] = &[Flag {
        name: "ALL",
        value: Rights(65535),
    }];

    /// The set of exactly these bits.
    pub fn of(bits: u16) -> Rights
        ensures { result.0 ≡ bits }
    {
        Rights(bits)
    }

    /// The bits of the set.
    pub fn bits(self) -> u16
        ensures { result ≡ self.0 }
    {
        self.0
    }
}

impl Flags for Rights {
    type Bits = u16;

    ghost exact = { ⊤ };

    ghost table = { (codes "ALL", 65535) ∷ [] };

    ghost set_of = { λ r. r.0 };

    fn flags<'a>() -> &'a [Flag<Rights>] {
        Rights::FLAGS
    }

    fn bits(&self) -> u16 {
        self.0
    }

    fn from_bits_retain(bits: u16) -> Rights {
        Rights::of(bits)
    }
}
