// What is on the pages of a directory.
ghost use Rattle.std.specs.Prelude.{◌≡◌, ◌<◌, length, slice_index_or, is_some, OnOk, IfOk};
ghost use Rattle.std.specs.List.{AllByRecursion};
ghost use Rattle.psos_words.specs.Directory.{Never, entries_in};
ghost use Rattle.psos_dirrep.specs.Pages.{slots_in, ArePages, AreSlots};
ghost use Rattle.psos_calls.specs.declared.step.Step.{Step as Made};
ghost use Rattle.psos_calls.specs.Plan.Objects.{no_entry};
ghost use Rattle.psos_plan_dir.specs.Collected.{collected, name_in, none_used, read_name, with_name, with_names, IsNamed};
ghost use Rattle.psos_plan_dir.specs.Pages.{IsWhole, pages_in};

use psos_calls::{LevelAnswer, Names, StepSlice};
use psos_dirrep::name_from;
use psos_text::Name;
use psos_words::{Page, Word};
use std::alloc::{AllocError, Global};
use std::collections::BTreeSet;

// Whether no slot on these pages is used.
pub(crate) fn none_used(calls: &StepSlice<'_>) -> bool
    requires whole { AllByRecursion (λ (s : Made). IsWhole s.answer) calls.now }
    requires slots { AllByRecursion AreSlots (pages_in calls.now) }
    requires are { ArePages (pages_in calls.now) }
    ensures { result ≡ none_used (pages_in calls.now) }
{
    let Some((call, rest)) = calls.split_first() else {
        return true;
    };
    let LevelAnswer::Whole(page) = &call.answer else {
        unreachable!();
    };
    if !is_empty(page.page()) {
        return false;
    }
    none_used(&rest)
}

// Whether no slot of a page is used.
fn is_empty(page: &Page) -> bool
    requires slots { AreSlots page.now }
    requires long { length page.now ≡ 64 }
    ensures { result ≡ no_entry (entries_in (slots_in page.now)) }
{
    'slots: for k in 0..16u8 {
        if is_used(page, k) {
            return false;
        }
    }
    true
}

// Whether slot k of a page is used.
fn is_used(page: &Page, k: u8) -> bool
    requires within { k < 16 }
    requires slots { AreSlots page.now }
    ensures { result ≡ is_some (name_in (slice_index_or (slots_in page.now) k Never)) }
{
    match page.get(4 * k + 3) {
        Word::Cap(_) => true,
        Word::Data(_) => false,
    }
}

// The names on these pages, in order. `Err` only where memory runs out.
pub(crate) fn collected(alloc: Global, calls: &StepSlice<'_>) -> Result<BTreeSet<Name>, AllocError>
    requires whole { AllByRecursion (λ (s : Made). IsWhole s.answer) calls.now }
    requires slots { AllByRecursion AreSlots (pages_in calls.now) }
    requires are { ArePages (pages_in calls.now) }
    ensures { IfOk result (λ names. names.keys ≡ collected (pages_in calls.now)) }
{
    let Some((call, rest)) = calls.split_first() else {
        return Ok(BTreeSet::new(alloc));
    };
    let LevelAnswer::Whole(page) = &call.answer else {
        unreachable!();
    };
    let mut names = collected(alloc, &rest)?;
    put_names(&mut names, page.page())?;
    Ok(names)
}

// The names of a page go among others.
fn put_names(names: &mut BTreeSet<Name>, page: &Page) -> Result<(), AllocError>
    requires slots { AreSlots page.now }
    requires long { length page.now ≡ 64 }
    ensures { OnOk result (names.new.keys ≡ with_names (slots_in page.now) names.old.keys) }
{
    let mut k = 16;
    'slots: while k > 0 {
        k -= 1;
        put_name(names, name_on(page, k))?;
    }
    Ok(())
}

// A name, if there is one, goes among others.
fn put_name(names: &mut BTreeSet<Name>, name: Option<Name>) -> Result<(), AllocError>
    ensures { OnOk result (names.new.keys ≡ with_name name names.old.keys) }
{
    if let Some(name) = name {
        names.insert(name)?;
    }
    Ok(())
}

// The name in slot k of a page, if it is used.
fn name_on(page: &Page, k: u8) -> Option<Name>
    requires within { k < 16 }
    requires slots { AreSlots page.now }
    ensures { result ≡ name_in (slice_index_or (slots_in page.now) k Never) }
{
    let high = page.get(4 * k + 1);
    let low = page.get(4 * k + 2);
    let last = page.get(4 * k + 3);
    read_name(high, low, last)
}

// The name by the last three words of its slot, if it is used.
fn read_name(high: Word, low: Word, last: Word) -> Option<Name>
    requires { IsNamed high low last }
    ensures { result ≡ read_name high low last }
{
    let Word::Data(h) = high else {
        return None;
    };
    let Word::Data(l) = low else {
        return None;
    };
    match last {
        Word::Cap(_) => Some(name_from(h, l)),
        Word::Data(_) => None,
    }
}

// The names of a set as a list. `Err` only where memory runs out.
pub(crate) fn listed(alloc: Global, names: &BTreeSet<Name>) -> Result<Names, AllocError>
    ensures { IfOk result (λ list. list ≡ names.now.keys) }
{
    let mut list = Names::empty(alloc);
    'names: for name in names.iter() {
        list.push(*name)?;
    }
    Ok(list)
}
