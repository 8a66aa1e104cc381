// The entries of a directory.
ghost use Rattle.std.specs.Prelude.{◌≡◌, ◌+◌, ◌*◌, ◌<◌, ◌≤◌, length, option_map, slice_index_or};
ghost use Rattle.std.specs.List.{AllByRecursion};
ghost use Rattle.psos_limits.specs.declared.TheConstants.{MOST_ENTRIES};
ghost use Rattle.psos_text.specs.Name.{IsName};
ghost use Rattle.psos_words.specs.Directory.{Never, decode, find, slot_for};
ghost use Rattle.psos_dirrep.specs.Entries.{as_found, entry_in, read_entry};
ghost use Rattle.psos_dirrep.specs.Pages.{words_of, AreSlots, find_on, slot_on, entry_slot, or_else, behind};

use crate::flat::{see, word_of};
use crate::lists::is_list;
use crate::names::filled;
use crate::page::{find_on, free_on};
use crate::{DirEntry, Found};
use psos_limits::MOST_ENTRIES;
use psos_text::Name;
use psos_words::{Page, Word};
use std::marker::Model;

/// A directory's first pages, of which the words, with data 0 behind them, are an entry list. It is seen as the list
/// of the 127 entry slots (docs/system.md, "Words in blocks and directories"), and only borrows the pages.
#[derive(Drop)]
pub struct Entries127<'a> {
    pages: &'a [Page],
}

impl<'a> Model for Entries127<'a> {
    ghost use Rattle.std.specs.Prelude.{List};
    ghost use Rattle.psos_words.specs.Directory.{Slot};
    ghost use Rattle.psos_dirrep.specs.EntryLists.{entry_list, IsEntryList};
    ghost use Rattle.psos_dirrep.specs.Pages.{words_of};

    ghost Value = { List Slot };

    ghost view = { λ e. entry_list (words_of e.pages.now) };

    ghost invariant = { λ e. IsEntryList e.pages.now };
}

/// The entry slots of a directory by its first pages, at most eight. None exactly where their words, with data 0
/// behind them, are no entry list. It takes no memory.
pub fn decode<'a>(pages: &'a [Page]) -> Option<Entries127<'a>>
    requires { length pages.now ≤ 8 }
    ensures { result ≡ decode (words_of pages.now) }
{
    see(pages);
    if !is_list(pages) {
        return None;
    }
    Some(Entries127 { pages })
}

/// The entry of a name, with its slot in the directory. None exactly where no entry has the name.
pub fn find(entries: &Entries127<'_>, name: &Name) -> Option<Found>
    requires { IsName name.now }
    ensures { result ≡ option_map as_found (find entries.now name.now) }
{
    find_from(entries.pages, 0, name)
}

// The entry of a name on pages of which the first begins with this slot.
fn find_from(pages: &[Page], base: u8, name: &Name) -> Option<Found>
    requires named { IsName name.now }
    requires few { base + 16 * length pages.now ≤ 128 }
    requires slots { AllByRecursion AreSlots pages.now }
    ensures { result ≡ option_map as_found (find_on base pages.now name.now) }
{
    let Some((page, rest)) = pages.split_first() else {
        return None;
    };
    match find_on(page, base, name) {
        Some(found) => Some(found),
        None => find_from(rest, base + 16, name),
    }
}

/// The least slot that is not used. None exactly where all 127 are.
pub fn slot_for(entries: &Entries127<'_>) -> Option<u8>
    ensures { result ≡ slot_for entries.now }
{
    entry_slot(place(entries.pages))
}

/// A slot that is not used, if it may hold an entry: the last of 128 slots is never an entry's.
pub fn entry_slot(place: Option<u8>) -> Option<u8>
    ensures { result ≡ entry_slot place }
{
    match place {
        Some(k) => {
            if usize::from(k) < MOST_ENTRIES {
                Some(k)
            } else {
                None
            }
        }
        None => None,
    }
}

// The least slot that is not used, on at most eight pages or behind them.
fn place(pages: &[Page]) -> Option<u8>
    requires few { length pages.now ≤ 8 }
    requires slots { AllByRecursion AreSlots pages.now }
    ensures { result ≡ or_else (slot_on 0 pages.now) (behind pages.now) }
{
    if let Some(k) = free_from(pages, 0) {
        return Some(k);
    }
    if pages.len() < 8 {
        Some(16 * pages.len() as u8)
    } else {
        None
    }
}

// The least slot that is not used on pages of which the first begins with this slot.
fn free_from(pages: &[Page], base: u8) -> Option<u8>
    requires few { base + 16 * length pages.now ≤ 128 }
    requires slots { AllByRecursion AreSlots pages.now }
    ensures { result ≡ slot_on base pages.now }
{
    let Some((page, rest)) = pages.split_first() else {
        return None;
    };
    match free_on(page, base) {
        Some(k) => Some(k),
        None => free_from(rest, base + 16),
    }
}

impl<'a> Entries127<'a> {
    /// The entry in slot k. None exactly where that slot is not used.
    pub fn get(&self, k: u8) -> Option<DirEntry>
        requires { k < MOST_ENTRIES }
        ensures { result ≡ entry_in (slice_index_or self.now k Never) }
    {
        let pages = self.pages;
        let g = k as usize;
        if g >= 16 * pages.len() {
            return None;
        }
        read_entry(
            word_of(pages, 4 * g),
            word_of(pages, 4 * g + 1),
            word_of(pages, 4 * g + 2),
            word_of(pages, 4 * g + 3),
        )
    }
}

// The entry that four words are, if they are one.
fn read_entry(a: Word, b: Word, c: Word, d: Word) -> Option<DirEntry>
    ensures { result ≡ read_entry a b c d }
{
    let (Word::Data(mark), Word::Data(high), Word::Data(low), Word::Cap(cap)) = (a, b, c, d) else {
        return None;
    };
    match filled(high, low) {
        Some(name) => Some(DirEntry {
            name,
            cap,
            kept: mark == 2,
        }),
        None => None,
    }
}
