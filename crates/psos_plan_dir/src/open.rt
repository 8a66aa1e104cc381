// A directory by its pages in a trace.
ghost use Rattle.std.specs.Prelude.{◌≡◌, ◌+◌, ◌*◌, ◌/◌, ◌%◌, ◌<◌, ◌≤◌, length, option_map, IfOk};
ghost use Rattle.std.specs.List.{AllByRecursion};
ghost use Rattle.psos_limits.specs.declared.TheConstants.{SLOTS};
ghost use Rattle.psos_calls.specs.declared.step.Step.{Step as Made};
ghost use Rattle.psos_text.specs.Name.{IsName};
ghost use Rattle.psos_words.specs.Directory.{entries_in, find, slot_for};
ghost use Rattle.psos_dirrep.specs.Entries.{as_found};
ghost use Rattle.psos_dirrep.specs.Pages.{AreSlots, find_on, slot_on};
ghost use Rattle.psos_calls.specs.Language.Names.{names_of};
ghost use Rattle.psos_calls.specs.Plan.Objects.{is_empty};
ghost use Rattle.psos_plan_dir.specs.Pages.{IsOpen, IsWhole, opened_by, pages_in};
ghost use Rattle.psos_plan_dir.specs.Room.{room_for};

use crate::collect::{collected, listed, none_used};
use psos_calls::{Level, LevelAnswer, LevelCall, Names, Next, Refusal, StepSlice, Tab};
use psos_dirrep::{Found, entry_slot, find_on, free_on};
use psos_text::Name;
use psos_words::Word;
use std::alloc::{AllocError, Global};
use std::marker::Model;

/// A directory that was read: the slot of its representation's pages, and the calls that read the pages. It is seen as
/// that slot and the 127 entry slots, of which no list is made: each search goes page by page through the answers
/// (docs/levels.md, "Directories in words").
#[derive(Drop)]
pub struct Open<'a> {
    slot: u16,
    calls: StepSlice<'a>,
}

impl<'a> Model for Open<'a> {
    ghost use Rattle.psos_calls.specs.Plan.Parts.{Opened};
    ghost use Rattle.psos_plan_dir.specs.Pages.{IsOpen, opened_by};

    ghost Value = { Opened };

    ghost view = { λ o. opened_by o.slot o.calls };

    ghost invariant = { λ o. IsOpen o.slot o.calls };
}

impl<'a> Open<'a> {
    // The directory whose pages these calls read.
    pub(crate) fn of(slot: u16, calls: StepSlice<'a>) -> Open<'a>
        requires { IsOpen slot calls }
        ensures { result ≡ opened_by slot calls.entry }
    {
        Open { slot, calls }
    }

    /// The slot of its representation's pages.
    pub fn slot(&self) -> u16
        ensures slot { result ≡ self.now.slot }
        ensures low { result < SLOTS }
    {
        self.slot
    }

    /// The call that writes four words into entry slot k: at level 7, to the page of that slot.
    pub fn write(&self, k: u8, words: [Word; 4]) -> Next
        ensures { result ≡ Next.Call Level.L7 (LevelCall.FourPut (8 * self.now.slot + k / 16) (4 * (k % 16)) words) }
    {
        let page = 8 * self.slot() + u16::from(k / 16);
        Next::Call(
            Level::L7,
            LevelCall::FourPut {
                page,
                off: 4 * (k % 16),
                words,
            },
        )
    }

    /// Where an entry of a new name goes: the least slot that is not used. The refusals are `NameTaken`, exactly where
    /// an entry has the name, and else `Exhausted(Entries)`, exactly where all 127 slots are used.
    pub fn room_for(&self, name: &Name) -> Result<u8, Refusal>
        requires { IsName name.now }
        ensures { result ≡ room_for self.now name.now }
    {
        if self.find(name).is_some() {
            return Err(Refusal::NameTaken);
        }
        match self.free_slot() {
            Some(k) => Ok(k),
            None => Err(Refusal::Exhausted(Tab::Entries)),
        }
    }

    /// The entry of a name, with its slot in the directory. None exactly where no entry has the name.
    pub fn find(&self, name: &Name) -> Option<Found>
        requires { IsName name.now }
        ensures { result ≡ option_map as_found (find self.now.slots name.now) }
    {
        find_from(&self.calls, 0, name)
    }

    /// The least slot that is not used. None exactly where all 127 are.
    pub fn free_slot(&self) -> Option<u8>
        ensures { result ≡ slot_for self.now.slots }
    {
        entry_slot(free_from(&self.calls, 0))
    }

    /// Whether it has no entry.
    pub fn is_empty(&self) -> bool
        ensures { result ≡ is_empty self.now }
    {
        none_used(&self.calls)
    }

    /// The names of its entries, in the order of their bytes. `Err` only where memory runs out, and leaves nothing
    /// behind.
    pub fn names(&self, alloc: Global) -> Result<Names, AllocError>
        ensures { IfOk result (λ names. names ≡ names_of (entries_in self.now.slots)) }
    {
        let names = collected(alloc, &self.calls)?;
        listed(alloc, &names)
    }
}

// The entry of a name on pages of which the first begins with this slot.
fn find_from(calls: &StepSlice<'_>, base: u8, name: &Name) -> Option<Found>
    requires named { IsName name.now }
    requires few { base + 16 * length calls.now ≤ 128 }
    requires whole { AllByRecursion (λ (s : Made). IsWhole s.answer) calls.now }
    requires slots { AllByRecursion AreSlots (pages_in calls.now) }
    ensures { result ≡ option_map as_found (find_on base (pages_in calls.now) name.now) }
{
    let Some((call, rest)) = calls.split_first() else {
        return None;
    };
    let LevelAnswer::Whole(page) = &call.answer else {
        unreachable!();
    };
    match find_on(page.page(), base, name) {
        Some(found) => Some(found),
        None => find_from(&rest, base + 16, name),
    }
}

// The least slot that is not used on pages of which the first begins with this slot.
fn free_from(calls: &StepSlice<'_>, base: u8) -> Option<u8>
    requires few { base + 16 * length calls.now ≤ 128 }
    requires whole { AllByRecursion (λ (s : Made). IsWhole s.answer) calls.now }
    requires slots { AllByRecursion AreSlots (pages_in calls.now) }
    ensures { result ≡ slot_on base (pages_in calls.now) }
{
    let Some((call, rest)) = calls.split_first() else {
        return None;
    };
    let LevelAnswer::Whole(page) = &call.answer else {
        unreachable!();
    };
    match free_on(page.page(), base) {
        Some(k) => Some(k),
        None => free_from(&rest, base + 16),
    }
}
