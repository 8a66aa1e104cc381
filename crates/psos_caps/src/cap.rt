// A capability, and the number that stands for it.
ghost use Rattle.std.specs.Prelude.{◌≡◌, ◌≤◌, ◌<◌, ◌^◌, ◌↔◌, IsTrue, IsNone, IfSome, IsBitSet};
ghost use Rattle.psos_caps.specs.Capability.{full, restricted, payload_of};

use crate::Rights;
use bitflags::Flags;

/// A unique identifier: of an object, of a minted token, or of something that was deleted.
#[derive(Clone, Copy, PartialEq, Eq, PartialOrd, Ord, Debug)]
pub struct Uid(pub u64);

/// A unique identifier with a set of rights. Its fields are private: a capability comes from an issuer, from
/// another capability by `restrict`, or from the number that stands for one (docs/system.md, "Capabilities").
#[derive(Clone, Copy, PartialEq, Eq, Debug)]
pub struct Cap {
    uid: u64,
    rights: u16,
}

impl Cap {
    /// The identifier.
    pub fn uid(self) -> Uid
        ensures { result.0 ≡ self.uid }
    {
        Uid(self.uid)
    }

    /// The rights.
    pub fn rights(self) -> Rights
        ensures { result.0 ≡ self.rights }
    {
        Rights::of(self.rights)
    }

    /// Whether it has the right of this bit.
    pub fn has(self, bit: u8) -> bool
        requires { bit < 16 }
        ensures { IsTrue result ↔ IsBitSet self.rights bit }
    {
        self.rights & (1 << bit) != 0
    }

    /// The same identifier, with those of its rights that are kept. No right is ever added.
    pub fn restrict(self, keep: Rights) -> Cap
        ensures { result ≡ restricted self keep.0 }
    {
        Cap {
            uid: self.uid,
            rights: self.rights().intersection(keep).bits(),
        }
    }

    // A capability with all rights. Issuers alone make one.
    pub(crate) fn full(uid: Uid) -> Cap
        ensures { result ≡ full uid.0 }
    {
        Cap {
            uid: uid.0,
            rights: u16::MAX,
        }
    }
}

/// The number that stands for a capability: the identifier in the low 64 bits, the rights above them.
pub fn to_payload(cap: Cap) -> u128
    ensures value { result ≡ payload_of cap }
    ensures small { result < 2 ^ 80 }
{
    u128::from(cap.uid) + (1u128 << 64) * u128::from(cap.rights)
}

/// The capability that a number stands for. None exactly where the number is 2^80 or more.
pub fn from_payload(payload: u128) -> Option<Cap>
    ensures none { IsNone result ↔ (2 ^ 80 ≤ payload) }
    ensures some { IfSome result (λ cap. payload_of cap ≡ payload) }
{
    if payload >= 1 << 80 {
        return None;
    }
    let uid = (payload % (1 << 64)) as u64;
    let rights = (payload / (1 << 64)) as u16;
    Some(Cap { uid, rights })
}
