// Whether the words of pages are an entry list.
ghost use Rattle.std.specs.Prelude.{◌≡◌, ◌+◌, ◌*◌, ◌<◌, ◌≤◌, length, drop, is_some, option_map, Some, IsTrue};
ghost use Rattle.std.specs.List.{list_any};
ghost use Rattle.psos_words.specs.Directory.{slot_of, slots_of, is_filled_name, name_from, are_apart, has_name, decode};
ghost use Rattle.psos_dirrep.specs.EntryLists.{ends_never};
ghost use Rattle.psos_dirrep.specs.Lists.{order_from, used_halves, halves_at, is_named, FromSlot};
ghost use Rattle.psos_dirrep.specs.Pages.{words_of, slots_in, ArePages};

use crate::flat::word_of;
use crate::names::is_filled;
use crate::page::is_never;
use psos_words::{Page, Word};

// Whether four words are a slot.
fn is_slot(a: Word, b: Word, c: Word, d: Word) -> bool
    ensures { result ≡ is_some (slot_of a b c d) }
{
    let (Word::Data(mark), Word::Data(high), Word::Data(low)) = (a, b, c) else {
        return false;
    };
    match d {
        Word::Data(n) => high == 0 && low == 0 && n == 0 && (mark == 0 || mark == 3),
        Word::Cap(_) => (mark == 1 || mark == 2) && is_filled(high, low),
    }
}

// Whether all words from slot g on are slots.
pub(crate) fn are_slots(pages: &[Page], g: usize) -> bool
    requires { FromSlot pages.now g }
    ensures { result ≡ is_some (slots_of (drop (4 * g) (words_of pages.now))) }
{
    if g >= 16 * pages.len() {
        return true;
    }
    let a = word_of(pages, 4 * g);
    let b = word_of(pages, 4 * g + 1);
    let c = word_of(pages, 4 * g + 2);
    let d = word_of(pages, 4 * g + 3);
    if !is_slot(a, b, c, d) {
        return false;
    }
    are_slots(pages, g + 1)
}

// Whether the slots from slot g on are in order, where one before them was never used (`ended`) or none.
pub(crate) fn are_ordered(pages: &[Page], g: usize, ended: bool) -> bool
    requires from { FromSlot pages.now g }
    requires slots { slots_of (drop (4 * g) (words_of pages.now)) ≡ Some (slots_in (drop (4 * g) (words_of pages.now))) }
    ensures { result ≡ order_from ended (slots_in (drop (4 * g) (words_of pages.now))) }
{
    if g >= 16 * pages.len() {
        return true;
    }
    if is_never(word_of(pages, 4 * g)) {
        return are_ordered(pages, g + 1, true);
    }
    if ended {
        return false;
    }
    are_ordered(pages, g + 1, false)
}

// Whether no two entries from slot g on have one name.
pub(crate) fn are_apart(pages: &[Page], g: usize) -> bool
    requires from { FromSlot pages.now g }
    requires slots { slots_of (drop (4 * g) (words_of pages.now)) ≡ Some (slots_in (drop (4 * g) (words_of pages.now))) }
    ensures { result ≡ are_apart (slots_in (drop (4 * g) (words_of pages.now))) }
{
    if g >= 16 * pages.len() {
        return true;
    }
    match halves_at(pages, g) {
        Some((high, low)) => {
            if has_later(pages, g + 1, high, low) {
                return false;
            }
            are_apart(pages, g + 1)
        }
        None => are_apart(pages, g + 1),
    }
}

// Whether an entry from slot g on has the name with these two numbers.
fn has_later(pages: &[Page], g: usize, high: u64, low: u64) -> bool
    requires from { FromSlot pages.now g }
    requires slots { slots_of (drop (4 * g) (words_of pages.now)) ≡ Some (slots_in (drop (4 * g) (words_of pages.now))) }
    ensures { result ≡ list_any (has_name (name_from high low)) (slots_in (drop (4 * g) (words_of pages.now))) }
{
    if g >= 16 * pages.len() {
        return false;
    }
    if is_named(halves_at(pages, g), high, low) {
        return true;
    }
    has_later(pages, g + 1, high, low)
}

// The two numbers of a used slot's name.
fn used_halves(a: Word, b: Word, c: Word) -> Option<(u64, u64)>
    ensures { result ≡ used_halves a b c }
{
    let (Word::Data(mark), Word::Data(high), Word::Data(low)) = (a, b, c) else {
        return None;
    };
    if mark == 1 || mark == 2 {
        Some((high, low))
    } else {
        None
    }
}

// The two numbers of the name in slot g, if that is used.
fn halves_at(pages: &[Page], g: usize) -> Option<(u64, u64)>
    requires from { FromSlot pages.now g }
    requires within { g < 16 * length pages.now }
    ensures { result ≡ halves_at pages.now g }
{
    used_halves(
        word_of(pages, 4 * g),
        word_of(pages, 4 * g + 1),
        word_of(pages, 4 * g + 2),
    )
}

// Whether a slot is used and has the name with these two numbers.
fn is_named(halves: Option<(u64, u64)>, high: u64, low: u64) -> bool
    ensures { result ≡ is_named halves high low }
{
    match halves {
        Some((h, l)) => h == high && l == low,
        None => false,
    }
}

// Whether pages are an entry list.
pub(crate) fn is_list(pages: &[Page]) -> bool
    requires are { ArePages pages.now }
    requires few { length pages.now ≤ 8 }
    ensures { result ≡ is_some (decode (words_of pages.now)) }
{
    if !are_slots(pages, 0) {
        return false;
    }
    if !ends_never(pages) {
        return false;
    }
    if !are_ordered(pages, 0, false) {
        return false;
    }
    are_apart(pages, 0)
}

// Whether the last of 128 slots was never used, or is not on these pages.
fn ends_never(pages: &[Page]) -> bool
    requires are { ArePages pages.now }
    requires few { length pages.now ≤ 8 }
    ensures { result ≡ ends_never pages.now }
{
    if pages.len() < 8 {
        return true;
    }
    is_never(word_of(pages, 508))
}
