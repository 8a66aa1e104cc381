// The cells of the entries of a journal.
ghost use Rattle.std.specs.Prelude.{◌≡◌, ◌+◌, ◌<◌, ◌≤◌, ◌^◌, ◌++◌, ◌∷◌, [], length, MatchBool};
ghost use mathlib.Core.List.{IsPrefix};

use crate::law::Law;
use crate::names::Names;
use crate::past::Past;
use crate::steps::{fill, look, make};
use logbook::{Pen, Word};
use std::marker::{Model, PhantomData};

/// The cells of a journal: each entry fills one, and the right to fill the next lies here. So whoever
/// has the cells knows that there are no more entries than full cells. They are seen as the number of
/// full cells.
#[derive(Drop)]
pub(crate) struct Cells<T: Names, E> {
    pub(crate) count: Word<Option<(E, u64)>, u64, Law>,
    pub(crate) next: Pen,
    pub(crate) full: u32,
    pub(crate) of: PhantomData<T>,
}

impl<T: Names, E> Model for Cells<T, E> {
    ghost use Rattle.std.specs.Prelude.{◌≡◌, ℕ, suc};
    ghost use Rattle.std.specs.Coded.{coded_ℕ};
    ghost use Rattle.logbook.specs.Pages.{nib, may_write};
    ghost use Rattle.psos_journal.specs.Cells.{count_word};

    ghost Value = { ℕ };

    ghost coded = { coded_ℕ };

    ghost view = { λ c. c.full };

    ghost invariant = { λ c. (c.count ≡ count_word T.book) × (c.next.book ≡ T.book) × (c.next.nib ≡ nib may_write (suc (suc c.full)) 0) };
}

impl<T: Names, E> Cells<T, E> {
    /// How many cells are full.
    pub(crate) fn len(&self) -> u32
        ensures { result ≡ self.now }
    {
        self.full
    }

    /// Fills the next cell with an entry, and makes the one behind it. It answers false where that cell
    /// could not be made, and then changes nothing.
    pub(crate) fn add(&mut self, past: &mut Past<T, E>, entry: &(E, u64)) -> bool
        requires all { length past.old ≡ self.old }
        requires room { self.old + 1 < 2 ^ 32 }
        ensures { MatchBool result ((self.new ≡ self.old + 1) × (past.new ≡ past.old ++ entry.now ∷ [])) ((self.new ≡ self.old) × (past.new ≡ past.old)) }
    {
        let cells = self.full as u64 + 3;
        let Some(next) = make(&self.count, &past.seen, cells) else {
            return false;
        };
        fill(&self.count, &mut past.seen, &mut self.next, entry);
        self.next = next;
        self.full += 1;
        true
    }

    /// What is known of the entries of this journal is a beginning of all its entries.
    pub(crate) fn agree(&mut self, past: &Past<T, E>, other: &Past<T, E>)
        requires { length past.now ≡ self.old }
        ensures cells { self.new ≡ self.old }
        ensures agrees { IsPrefix other.now past.now }
    {
        let mut both = past.joined(other);
        look(
            &self.count,
            &mut both.seen,
            &mut self.next,
            self.full as u64,
        );
    }
}
