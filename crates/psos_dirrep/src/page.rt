// One page of a directory.
ghost use Rattle.std.specs.Prelude.{◌≡◌, ◌+◌, ◌*◌, ◌<◌, ◌≤◌, None, option_map, IfNone, IfSome};
ghost use Rattle.psos_text.specs.Name.{IsName};
ghost use Rattle.psos_words.specs.Words.{word_at};
ghost use Rattle.psos_words.specs.Directory.{has_never, find, slot_for};
ghost use Rattle.psos_dirrep.specs.Entries.{as_found};
ghost use Rattle.psos_dirrep.specs.Pages.{moved, slots_in, AreSlots};
ghost use Rattle.psos_dirrep.specs.Scan.{entry_at, scan, scan_free, is_never};

use crate::Found;
use crate::halves::halves;
use crate::look::{entry_on, has_halves, holds_none, word};
use psos_text::Name;
use psos_words::{Page, Word};

/// Whether the last slot of a page was never used. On a page of a directory this is so exactly where the page has a slot
/// that was never used, since nothing used comes after one; then no page after it is to be read (docs/levels.md,
/// "Directories in words").
pub fn ends_never(page: &Page) -> bool
    ensures last { result ≡ is_never (word_at page.now 60) }
    ensures directory { AreSlots page.now → result ≡ has_never page.now }
{
    is_never(word(page, 60))
}

/// The entry of a name on one page of a directory, which begins with entry slot `base`. None exactly where no entry on
/// the page has the name. It compares the name's first eight bytes, and the others only where these are the same.
pub fn find_on(page: &Page, base: u8, name: &Name) -> Option<Found>
    requires named { IsName name.now }
    requires within { base ≤ 240 }
    ensures found { AreSlots page.now → result ≡ option_map as_found (option_map (moved base) (find (slots_in page.now) name.now)) }
    ensures near { IfSome result (λ found. found.slot < base + 16) }
{
    let (high, low) = halves(name);
    let Some(k) = named_slot(page, high, low) else {
        return None;
    };
    entry_on(page, base, k)
}

/// The least slot that is not used on one page of a directory, which begins with entry slot `base`. None exactly where
/// all 16 are used.
pub fn free_on(page: &Page, base: u8) -> Option<u8>
    requires { base ≤ 240 }
    ensures place { AreSlots page.now → result ≡ option_map (λ i. base + i) (slot_for (slots_in page.now)) }
    ensures near { IfSome result (λ k. k < base + 16) }
{
    match scan_free(page) {
        Some(k) => Some(base + k),
        None => None,
    }
}

// The slot of the name with these two numbers.
fn named_slot(page: &Page, high: u64, low: u64) -> Option<u8>
    ensures none { IfNone result (scan 0 high low page.now ≡ None) }
    ensures some { IfSome result (λ k. scan 0 high low page.now ≡ entry_at k (word_at page.now (4 * k)) (word_at page.now (4 * k + 3))) }
    ensures small { IfSome result (λ k. k < 16) }
{
    'slots: for k in 0..16u8 {
        if has_halves(page, k, high, low) {
            return Some(k);
        }
    }
    None
}

// The least slot that holds no entry.
fn scan_free(page: &Page) -> Option<u8>
    ensures place { result ≡ scan_free 0 page.now }
    ensures small { IfSome result (λ k. k < 16) }
{
    'slots: for k in 0..16u8 {
        if holds_none(page, k) {
            return Some(k);
        }
    }
    None
}

// Whether this first word is that of a slot that was never used.
pub(crate) fn is_never(first: Word) -> bool
    ensures { result ≡ is_never first }
{
    match first {
        Word::Data(mark) => mark == 0,
        Word::Cap(_) => false,
    }
}
