//! Guards of stores: which words a store takes, and which rights a capability has.
#![tactic(auto)]

ghost use Rattle.std.specs.Prelude.{◌≡◌, ◌<◌, None, Some, OnOk, IfErr};
ghost use Rattle.psos_words.specs.Guard.{has_bit, missing, barred};

use psos_caps::Rights;
use psos_words::Word;

/// Whether these rights, or this guard, have a bit. Bit 0 is the lowest (docs/system.md, "Rights").
pub fn has_bit(rights: Rights, bit: u8) -> bool
    requires { bit < 16 }
    ensures { result ≡ has_bit rights.0 bit }
{
    (rights.bits() >> bit) % 2 == 1
}

// The least of the bits 0 to 2 of a guard that these rights lack.
fn missing(guard: Rights, rights: Rights) -> Option<u8>
    ensures { result ≡ missing guard.0 rights.0 }
{
    if has_bit(guard, 0) && !has_bit(rights, 0) {
        return Some(0);
    }
    if has_bit(guard, 1) && !has_bit(rights, 1) {
        return Some(1);
    }
    if has_bit(guard, 2) && !has_bit(rights, 2) {
        return Some(2);
    }
    None
}

/// Whether a store with this guard takes a word. Data always passes. An `Err` is the least of the bits 0 to 2 of the
/// guard that the capability lacks, and there is no other `Err` (docs/system.md, "Stores and guards").
pub fn admits(guard: Rights, word: Word) -> Result<(), u8>
    ensures passes { OnOk result (barred guard.0 word ≡ None) }
    ensures barred { IfErr result (λ bit. barred guard.0 word ≡ Some bit) }
{
    let Word::Cap(cap) = word else {
        return Ok(());
    };
    match missing(guard, cap.rights()) {
        Some(bit) => Err(bit),
        None => Ok(()),
    }
}
