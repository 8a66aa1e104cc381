// Capabilities that are handed out.
ghost use Rattle.std.specs.Prelude.{◌≡◌};
ghost use Rattle.psos_caps.specs.Capability.{full};

use psos_caps::{Cap, Rights, from_payload};

/// The capability on an identifier with these rights.
pub(crate) fn capability(uid: u64, rights: Rights) -> Cap
    ensures { result ≡ record { uid = uid; rights = rights.0 } }
{
    match from_payload(u128::from(uid) + (1u128 << 64) * u128::from(rights.bits())) {
        Some(cap) => cap,
        None => unreachable!(),
    }
}

/// Every right on an identifier.
pub(crate) fn full(uid: u64) -> Cap
    ensures { result ≡ full uid }
{
    capability(uid, Rights::of(u16::MAX))
}
