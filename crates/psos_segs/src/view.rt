// What an identifier leads to, and what goes there.
ghost use Rattle.std.specs.Prelude.{◌≡◌};
ghost use Rattle.psos_calls.specs.Levels.Level8.{barred_by};
ghost use Rattle.psos_calls.specs.Language.Views.{fits_in};
ghost use Rattle.psos_segs.specs.Within.{as_view};

use psos_calls::SegRow;
use psos_caps::{Rights, Uid};
use psos_guards::admits;
use psos_words::Word;

/// The words that a live segment or window leads to: the segment with its row, where they begin in it, and how many.
#[derive(Clone, Copy)]
pub(crate) struct View {
    pub seg: Uid,
    pub row: SegRow,
    pub base: u16,
    pub len: u16,
}

/// Whether a part of the words, of at least one word, lies within them.
pub(crate) fn fits_in(view: View, base: u64, len: u64) -> bool
    ensures { result ≡ fits_in (as_view view) base len }
{
    let whole = u64::from(view.len);
    len > 0 && len <= whole && base <= whole - len
}

/// The bit of a guard for which the word, where there is one, is not admitted.
pub(crate) fn barred_by(guard: Rights, word: Option<Word>) -> Option<u8>
    ensures { result ≡ barred_by guard.0 word }
{
    match word {
        Some(word) => admits(guard, word).err(),
        None => None,
    }
}
