// Level 7.
ghost use Rattle.std.specs.Prelude.{◌≡◌, ◌≤◌, ◌<◌, ◌/◌, IfOk, OnOk};
ghost use Rattle.psos_calls.specs.Levels.Level7.{IsTaken};

use crate::crossing::crosses;
use crate::report::Report;
use crate::stop::Stop;
use psos_calls::{LevelAnswer, LevelCall};
use psos_caps::{Issuer, Uid};
use psos_io::{NoStore, Store};
use psos_pages::Pages;
use psos_words::Word;
use std::marker::Send;

/// Words of two slots, and a slot that is freed and taken again.
pub fn show(report: &mut Report) -> Result<(), Stop> {
    report.library(b"psos_pages");
    words(report)?;
    slots(report)
}

// Over any store that may cross threads.
fn all_cross<B: Store + Send>(pages: &Pages<B>) {
    crosses::<Pages<B>>(pages);
}

// Slots 0 and 1 are taken.
fn two_slots(report: &mut Report) -> Result<Pages<NoStore>, Stop>
    ensures first { IfOk result (λ p. IsTaken p.slots 0) }
    ensures second { IfOk result (λ p. IsTaken p.slots 1) }
{
    let mut pages = Pages::new(report.alloc(), 8, NoStore::new())?;
    let first = pages.act(report.alloc(), &LevelCall::PageTake)?;
    report.answer(b"take", &first);
    let second = pages.act(report.alloc(), &LevelCall::PageTake)?;
    report.answer(b"take", &second);
    Ok(pages)
}

fn put(
    report: &mut Report,
    pages: &mut Pages<NoStore>,
    page: u16,
    off: u8,
    word: Word,
) -> Result<(), Stop>
    requires taken { IsTaken pages.old.slots (page / 8) }
    requires within { off < 64 }
    ensures { OnOk result (IsTaken pages.new.slots (page / 8)) }
{
    let done = pages.act(report.alloc(), &LevelCall::WordPut { page, off, word })?;
    report.answer_at(b"put", page, off, &done);
    Ok(())
}

fn get(report: &mut Report, pages: &mut Pages<NoStore>, page: u16, off: u8) -> Result<(), Stop>
    requires taken { IsTaken pages.old.slots (page / 8) }
    requires within { off < 64 }
    ensures { OnOk result (IsTaken pages.new.slots (page / 8)) }
{
    let got = pages.act(report.alloc(), &LevelCall::WordGet { page, off })?;
    report.answer_at(b"get", page, off, &got);
    Ok(())
}

// Four words at the end of page 9.
fn put_four(report: &mut Report, pages: &mut Pages<NoStore>, words: [Word; 4]) -> Result<(), Stop>
    requires { IsTaken pages.old.slots 1 }
    ensures { OnOk result (IsTaken pages.new.slots 1) }
{
    let (page, off) = (9, 60);
    let done = pages.act(report.alloc(), &LevelCall::FourPut { page, off, words })?;
    report.answer_at(b"put four", page, off, &done);
    Ok(())
}

// Some words of page 9.
fn whole(report: &mut Report, pages: &mut Pages<NoStore>) -> Result<(), Stop>
    requires { IsTaken pages.old.slots 1 }
    ensures { OnOk result (IsTaken pages.new.slots 1) }
{
    let answer = pages.act(report.alloc(), &LevelCall::PageGet { page: 9 })?;
    report.answer(b"page 9", &answer);
    let LevelAnswer::Whole(page) = answer else {
        return Err(Stop);
    };
    report.word(b"its word 0", page.get(0));
    report.word(b"its word 59", page.get(59));
    report.word(b"its word 60", page.get(60));
    report.word(b"its word 61", page.get(61));
    report.word(b"its word 62", page.get(62));
    report.word(b"its word 63", page.get(63));
    Ok(())
}

fn words(report: &mut Report) -> Result<(), Stop> {
    let mut pages = two_slots(report)?;
    let pages = &mut pages;
    let cap = Word::Cap(Issuer::new(Uid(7)).fresh());
    put(report, pages, 15, 63, cap)?;
    get(report, pages, 15, 63)?;
    get(report, pages, 15, 62)?;
    get(report, pages, 8, 63)?;
    put(report, pages, 15, 63, Word::Data(8))?;
    get(report, pages, 15, 63)?;
    let four = [Word::Data(1), cap, Word::Data(3), Word::Data(4)];
    put_four(report, pages, four)?;
    whole(report, pages)?;
    get(report, pages, 10, 0)
}

// Slot 0 is freed and taken again.
fn again(report: &mut Report, pages: &mut Pages<NoStore>) -> Result<(), Stop>
    requires { IsTaken pages.old.slots 0 }
    ensures { OnOk result (IsTaken pages.new.slots 0) }
{
    let freed = pages.act(report.alloc(), &LevelCall::PageDrop { slot: 0 })?;
    report.answer(b"drop slot 0", &freed);
    let taken = pages.act(report.alloc(), &LevelCall::PageTake)?;
    report.answer(b"take", &taken);
    Ok(())
}

fn slots(report: &mut Report) -> Result<(), Stop> {
    let mut pages = two_slots(report)?;
    crosses::<Pages<NoStore>>(&pages);
    all_cross(&pages);
    put(report, &mut pages, 7, 63, Word::Data(5))?;
    again(report, &mut pages)?;
    get(report, &mut pages, 7, 63)?;
    let other = pages.act(report.alloc(), &LevelCall::Fresh)?;
    report.answer(b"a call of another level", &other);
    report.number(b"faults of the store", pages.store_faults());
    report.number(b"faults of the store", pages.into_store().faults());
    Ok(())
}
