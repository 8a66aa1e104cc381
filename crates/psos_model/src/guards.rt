// Guards of stores.
ghost use Rattle.std.specs.Prelude.{◌≡◌, ◌<◌};
ghost use Rattle.psos_words.specs.Guard.{has_bit, missing, barred};

use psos_caps::Rights;
use psos_words::Word;

// Whether these bits have this one.
fn has_bit(bits: u16, bit: u8) -> bool
    requires { bit < 16 }
    ensures { result ≡ has_bit bits bit }
{
    (bits >> bit) % 2 == 1
}

// The least bit of a guard that these rights lack.
fn missing(guard: u16, rights: u16) -> Option<u8>
    ensures { result ≡ missing guard rights }
{
    if has_bit(guard, 0) && !has_bit(rights, 0) {
        return Some(0);
    }
    if has_bit(guard, 1) && !has_bit(rights, 1) {
        return Some(1);
    }
    if has_bit(guard, 2) && !has_bit(rights, 2) {
        return Some(2);
    }
    None
}

/// The bit of a guard for which a store does not take a word.
pub(crate) fn barred(guard: Rights, word: Word) -> Option<u8>
    ensures { result ≡ barred guard.0 word }
{
    match word {
        Word::Data(_) => None,
        Word::Cap(cap) => missing(guard.bits(), cap.rights().bits()),
    }
}
