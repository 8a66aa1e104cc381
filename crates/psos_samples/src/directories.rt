// One page of a directory: its words, and what is found on it.
ghost use Rattle.psos_text.specs.Name.{IsName};

use crate::lines::{put_answer, put_option, put_text};
use psos_caps::{Cap, Issuer, Uid};
use psos_dirrep::{Found, ends_never, entry_words, find_on, free_on, gone_words};
use psos_text::{Name, put_hex4, put_number};
use psos_words::{Page, Word};
use std::alloc::{AllocError, Global};

/// A capability on object 7, with all rights.
pub(crate) fn some_cap() -> Cap {
    Issuer::new(Uid(7)).fresh()
}

/// Four words from slot k on.
pub(crate) fn put_slot(page: &mut Page, k: u8, words: &[Word; 4]) {
    if k < 16 {
        page.put(4 * k, words[0]);
        page.put(4 * k + 1, words[1]);
        page.put(4 * k + 2, words[2]);
        page.put(4 * k + 3, words[3]);
    }
}

/// An entry with this text as its name.
pub(crate) fn put_entry(page: &mut Page, k: u8, text: &[u8], cap: Cap, kept: bool) {
    if let Ok(name) = Name::read(text) {
        put_slot(page, k, &entry_words(&name, cap, kept));
    }
}

// A word: data in sixteen hexadecimal digits, or whether it is this capability.
fn put_word(alloc: Global, out: &mut Vec<u8>, word: Word, cap: Cap) -> Result<(), AllocError> {
    match word {
        Word::Data(n) => {
            put_hex4(alloc, out, (n >> 48) as u16)?;
            put_hex4(alloc, out, (n >> 32 & 0xffff) as u16)?;
            put_hex4(alloc, out, (n >> 16 & 0xffff) as u16)?;
            put_hex4(alloc, out, (n & 0xffff) as u16)?;
            out.extend_from_slice(b"\n")
        }
        Word::Cap(found) => put_answer(out, b"the capability", found == cap),
    }
}

// The four words of an entry.
fn put_entry_words(
    alloc: Global,
    out: &mut Vec<u8>,
    words: &[Word; 4],
    cap: Cap,
) -> Result<(), AllocError> {
    put_word(alloc, out, words[0], cap)?;
    put_word(alloc, out, words[1], cap)?;
    put_word(alloc, out, words[2], cap)?;
    put_word(alloc, out, words[3], cap)
}

/// What a search found: the slot, the kind of entry, and whether it has this capability.
pub(crate) fn put_found(
    alloc: Global,
    out: &mut Vec<u8>,
    shown: &[u8],
    found: Option<Found>,
    cap: Cap,
) -> Result<(), AllocError> {
    let Some(found) = found else {
        return put_text(out, shown, b"not found");
    };
    out.extend_from_slice(shown)?;
    out.extend_from_slice(b": slot ")?;
    put_number(alloc, out, u64::from(found.slot))?;
    out.extend_from_slice(if found.kept {
        b", distinguished"
    } else {
        b", plain"
    })?;
    out.extend_from_slice(if found.cap == cap {
        b", the capability\n"
    } else {
        b", another capability\n"
    })
}

// The least slot that is not used.
fn put_free(alloc: Global, out: &mut Vec<u8>, slot: Option<u8>) -> Result<(), AllocError> {
    let slot = match slot {
        Some(k) => Some(u64::from(k)),
        None => None,
    };
    put_option(alloc, out, b"free slot", slot)
}

// The words of two entries: a distinguished one, and a plain one with the longest name.
fn put_both_words(
    alloc: Global,
    out: &mut Vec<u8>,
    scratch: &Name,
    long: &Name,
) -> Result<(), AllocError>
    requires first { IsName scratch.now }
    requires second { IsName long.now }
{
    let cap = some_cap();
    out.extend_from_slice(b"words of scratch\n")?;
    put_entry_words(alloc, out, &entry_words(scratch, cap, true), cap)?;
    out.extend_from_slice(b"words of abcdefghijklmnop\n")?;
    put_entry_words(alloc, out, &entry_words(long, cap, false), cap)
}

// A page with both entries, in slots 0 and 1.
fn both_on(scratch: &Name, long: &Name) -> Page
    requires first { IsName scratch.now }
    requires second { IsName long.now }
{
    let mut page = Page::zero();
    put_slot(&mut page, 0, &entry_words(scratch, some_cap(), true));
    put_slot(&mut page, 1, &entry_words(long, some_cap(), false));
    page
}

// What is found on a page without an entry, and on one that has both and is searched as the first or the last.
fn put_searches(
    alloc: Global,
    out: &mut Vec<u8>,
    scratch: &Name,
    long: &Name,
    near: &Name,
) -> Result<(), AllocError>
    requires first { IsName scratch.now }
    requires second { IsName long.now }
    requires other { IsName near.now }
{
    let cap = some_cap();
    let none = Page::zero();
    put_answer(out, b"a slot was never used", ends_never(&none))?;
    put_free(alloc, out, free_on(&none, 0))?;
    put_found(
        alloc,
        out,
        b"abcdefghijklmnop",
        find_on(&none, 0, long),
        cap,
    )?;
    let page = both_on(scratch, long);
    put_found(alloc, out, b"scratch", find_on(&page, 0, scratch), cap)?;
    put_found(
        alloc,
        out,
        b"abcdefghijklmnop",
        find_on(&page, 0, long),
        cap,
    )?;
    put_found(
        alloc,
        out,
        b"on the last page",
        find_on(&page, 112, long),
        cap,
    )?;
    put_found(
        alloc,
        out,
        b"abcdefghijklmnoq",
        find_on(&page, 0, near),
        cap,
    )?;
    put_free(alloc, out, free_on(&page, 0))?;
    put_free(alloc, out, free_on(&page, 112))
}

// What is found where one of both entries is gone.
fn put_gone(alloc: Global, out: &mut Vec<u8>, scratch: &Name, long: &Name) -> Result<(), AllocError>
    requires first { IsName scratch.now }
    requires second { IsName long.now }
{
    let mut page = both_on(scratch, long);
    put_slot(&mut page, 0, &gone_words());
    put_found(
        alloc,
        out,
        b"scratch",
        find_on(&page, 0, scratch),
        some_cap(),
    )?;
    put_free(alloc, out, free_on(&page, 0))
}

// A page of which all slots are used.
fn put_full(alloc: Global, out: &mut Vec<u8>) -> Result<(), AllocError> {
    let mut page = Page::zero();
    'slots: for k in 0..16u8 {
        put_entry(&mut page, k, b"scratch", some_cap(), true);
    }
    put_answer(out, b"a slot was never used", ends_never(&page))?;
    put_free(alloc, out, free_on(&page, 0))
}

pub(crate) fn put_page(alloc: Global, out: &mut Vec<u8>) -> Result<(), AllocError> {
    out.extend_from_slice(b"== one page of a directory\n")?;
    let Ok(scratch) = Name::read(b"scratch") else {
        return Ok(());
    };
    let Ok(long) = Name::read(b"abcdefghijklmnop") else {
        return Ok(());
    };
    let Ok(near) = Name::read(b"abcdefghijklmnoq") else {
        return Ok(());
    };
    put_both_words(alloc, out, &scratch, &long)?;
    put_searches(alloc, out, &scratch, &long, &near)?;
    put_gone(alloc, out, &scratch, &long)?;
    put_full(alloc, out)
}
