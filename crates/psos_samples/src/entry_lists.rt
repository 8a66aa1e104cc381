// Pages that are an entry list, or none: a whole directory, read.
ghost use Rattle.std.specs.Prelude.{◌≡◌, ◌≤◌, length, IfOk};

use crate::directories::{put_entry, put_found, put_slot, some_cap};
use crate::lines::{put_answer, put_option, put_text};
use psos_caps::Cap;
use psos_dirrep::{DirEntry, Entries127, Found, decode, find, gone_words, slot_for};
use psos_text::Name;
use psos_words::{Page, Word};
use std::alloc::{AllocError, Global};

// What is found under this text.
fn found(entries: &Entries127<'_>, text: &[u8]) -> Option<Found> {
    match Name::read(text) {
        Ok(name) => find(entries, &name),
        Err(_) => None,
    }
}

// Entries can be handed to another thread.
fn crosses<X: Send>(_x: &X) {}

// Sixteen entries `ea` to `ep`, and after them `last`, which is a distinguished one, and a slot that is free.
fn two_pages(alloc: Global) -> Result<Vec<Page>, AllocError>
    ensures { IfOk result (λ pages. length pages.items ≡ 2) }
{
    let cap = some_cap();
    let mut first = Page::zero();
    'slots: for k in 0..16u8 {
        put_entry(&mut first, k, &[b'e', b'a' + k], cap, false);
    }
    let mut second = Page::zero();
    put_entry(&mut second, 0, b"last", cap, true);
    put_slot(&mut second, 1, &gone_words());
    let mut pages = Vec::new(alloc);
    pages.push(first)?;
    pages.push(second)?;
    Ok(pages)
}

// The least slot that is not used, where pages are an entry list.
fn put_free(alloc: Global, out: &mut Vec<u8>, pages: &[Page]) -> Result<(), AllocError>
    requires { length pages.now ≤ 8 }
{
    let Some(entries) = decode(pages) else {
        return put_text(out, b"free slot", b"no entry list");
    };
    let slot = match slot_for(&entries) {
        Some(k) => Some(u64::from(k)),
        None => None,
    };
    put_option(alloc, out, b"free slot", slot)
}

// What stands in a slot: the name, the kind of entry, and whether it has this capability.
fn put_slot_entry(
    out: &mut Vec<u8>,
    shown: &[u8],
    entry: Option<DirEntry>,
    cap: Cap,
) -> Result<(), AllocError> {
    let Some(entry) = entry else {
        return put_text(out, shown, b"no entry");
    };
    put_text(out, shown, entry.name.as_bytes())?;
    put_answer(out, b"distinguished", entry.kept)?;
    put_answer(out, b"the capability", entry.cap == cap)
}

// Entries of two pages by their names and by their slots.
fn put_entries(
    alloc: Global,
    out: &mut Vec<u8>,
    entries: &Entries127<'_>,
) -> Result<(), AllocError> {
    let cap = some_cap();
    crosses::<Entries127<'_>>(entries);
    put_found(alloc, out, b"ea", found(entries, b"ea"), cap)?;
    put_found(alloc, out, b"last", found(entries, b"last"), cap)?;
    put_found(alloc, out, b"eq", found(entries, b"eq"), cap)?;
    put_slot_entry(out, b"slot 16", entries.get(16), cap)?;
    put_slot_entry(out, b"slot 15", entries.get(15), cap)?;
    put_slot_entry(out, b"slot 17", entries.get(17), cap)?;
    put_slot_entry(out, b"slot 126", entries.get(126), cap)
}

// Two pages, and the first of them alone.
fn put_two(alloc: Global, out: &mut Vec<u8>) -> Result<(), AllocError> {
    let pages = two_pages(alloc)?;
    match decode(&pages) {
        Some(entries) => put_entries(alloc, out, &entries)?,
        None => put_text(out, b"two pages", b"no entry list")?,
    }
    put_free(alloc, out, &pages)?;
    put_free(alloc, out, &pages[..1])
}

// Whether the second page, changed at slot k, is still that of a directory.
fn still(alloc: Global, k: u8, words: &[Word; 4]) -> Result<bool, AllocError> {
    let mut pages = two_pages(alloc)?;
    if let Some(page) = pages.get_mut(1) {
        put_slot(page, k, words);
    }
    Ok(decode(&pages).is_some())
}

// The second page with other words: which are an entry or a free slot, and where they may stand.
fn put_changed(alloc: Global, out: &mut Vec<u8>) -> Result<(), AllocError> {
    let cap = Word::Cap(some_cap());
    let new = Word::Data(0x6600_0000_0000_0000);
    let there = Word::Data(0x6565_0000_0000_0000);
    let gap = Word::Data(0x6600_0066_0000_0000);
    let none = Word::Data(0);
    let (one, three, four) = (Word::Data(1), Word::Data(3), Word::Data(4));
    let rows: [(&[u8], u8, [Word; 4]); 7] = [
        (b"a new name", 2, [one, new, none, cap]),
        (b"a name that is there", 2, [one, there, none, cap]),
        (
            b"behind a slot that was never used",
            3,
            [three, none, none, none],
        ),
        (b"an unknown mark", 2, [four, new, none, cap]),
        (b"a name with a gap", 2, [one, gap, none, cap]),
        (b"an entry without a capability", 2, [one, new, none, none]),
        (b"a free slot with data", 2, [three, none, none, one]),
    ];
    'rows: for (shown, k, words) in rows {
        put_answer(out, shown, still(alloc, k, &words)?)?;
    }
    Ok(())
}

// Eight pages of a directory with 127 entries, its last slot never used.
fn eight_pages(alloc: Global) -> Result<Vec<Page>, AllocError> {
    let mut pages = Vec::new(alloc);
    'pages: for i in 0..8u8 {
        let mut page = Page::zero();
        'slots: for k in 0..16u8 {
            if i < 7 || k < 15 {
                put_entry(&mut page, k, &[b'a' + i, b'a' + k], some_cap(), false);
            }
        }
        pages.push(page)?;
    }
    Ok(pages)
}

// A directory that is full has no slot left; with a 128th entry it is none.
fn put_full(alloc: Global, out: &mut Vec<u8>) -> Result<(), AllocError> {
    let mut pages = eight_pages(alloc)?;
    if pages.len() != 8 {
        return put_text(out, b"eight pages", b"not eight");
    }
    put_free(alloc, out, &pages)?;
    if let Some(entries) = decode(&pages) {
        put_slot_entry(out, b"slot 126", entries.get(126), some_cap())?;
    }
    if let Some(page) = pages.get_mut(7) {
        put_entry(page, 15, b"more", some_cap(), false);
    }
    put_answer(out, b"with a 128th entry", decode(&pages).is_some())
}

pub(crate) fn put_lists(alloc: Global, out: &mut Vec<u8>) -> Result<(), AllocError> {
    out.extend_from_slice(b"== two pages of a directory\n")?;
    put_two(alloc, out)?;
    out.extend_from_slice(b"== changed words\n")?;
    put_changed(alloc, out)?;
    out.extend_from_slice(b"== a full directory\n")?;
    put_full(alloc, out)
}
