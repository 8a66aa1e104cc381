// One slot, as a search sees it.
ghost use Rattle.std.specs.Prelude.{◌≡◌, ◌+◌, ◌*◌, ◌<◌, ◌≤◌, length, IfSome};
ghost use Rattle.psos_words.specs.Words.{word_at};
ghost use Rattle.psos_dirrep.specs.Scan.{entry_at, has_halves, holds_none};

use crate::Found;
use psos_words::{Page, Word};

// Word i of a page.
pub(crate) fn word(page: &Page, i: u8) -> Word
    requires { i < 64 }
    ensures word { result ≡ word_at page.now i }
    ensures all { length page.now ≡ 64 }
{
    page.get(i)
}

// Whether the name in slot k of a page has these two numbers. Most names differ in the first.
pub(crate) fn has_halves(page: &Page, k: u8, high: u64, low: u64) -> bool
    requires { k < 16 }
    ensures all { length page.now ≡ 64 }
    ensures halves { result ≡ has_halves high low (word_at page.now (4 * k + 1)) (word_at page.now (4 * k + 2)) }
{
    let Word::Data(h) = word(page, 4 * k + 1) else {
        return false;
    };
    if h != high {
        return false;
    }
    let Word::Data(l) = word(page, 4 * k + 2) else {
        return false;
    };
    l == low
}

// The entry in slot k of a page that begins with entry slot `base`, if it holds one.
pub(crate) fn entry_on(page: &Page, base: u8, k: u8) -> Option<Found>
    requires within { k < 16 }
    requires base { base ≤ 240 }
    ensures entry { result ≡ entry_at (base + k) (word_at page.now (4 * k)) (word_at page.now (4 * k + 3)) }
    ensures near { IfSome result (λ found. found.slot < base + 16) }
{
    let Word::Data(mark) = word(page, 4 * k) else {
        return None;
    };
    let Word::Cap(cap) = word(page, 4 * k + 3) else {
        return None;
    };
    Some(Found {
        slot: base + k,
        cap,
        kept: mark == 2,
    })
}

// Whether slot k of a page holds no entry.
pub(crate) fn holds_none(page: &Page, k: u8) -> bool
    requires { k < 16 }
    ensures all { length page.now ≡ 64 }
    ensures none { result ≡ holds_none (word_at page.now (4 * k + 3)) }
{
    match word(page, 4 * k + 3) {
        Word::Data(_) => true,
        Word::Cap(_) => false,
    }
}
