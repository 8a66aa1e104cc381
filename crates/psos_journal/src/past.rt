// What is known of the entries of a journal.
ghost use Rattle.std.specs.Prelude.{◌≡◌};
ghost use mathlib.Core.List.{IsPrefix};

use crate::law::Law;
use crate::names::Names;
use logbook::Seen;
use std::marker::{Model, PhantomData};

/// A beginning of a journal's entries, each with the bits of the members that it names. It takes no
/// bytes, is copied freely, and any two of one journal begin one list.
#[derive(Drop)]
pub(crate) struct Past<T: Names, E> {
    pub(crate) seen: Seen<Option<(E, u64)>, u64, Law>,
    pub(crate) of: PhantomData<T>,
}

impl<T: Names, E> Model for Past<T, E> {
    ghost use Rattle.std.specs.Prelude.{◌≡◌, List, ℕ};
    ghost use Rattle.std.specs.Coded.{coded_list, coded×, coded_ℕ};
    ghost use Rattle.psos_journal.specs.Cells.{entries_in};

    ghost Value = { List (E × ℕ) };

    ghost coded = { coded_list (coded× E.code coded_ℕ) };

    ghost view = { λ p. entries_in p.seen.log };

    ghost invariant = { λ p. p.seen.book ≡ T.book };
}

impl<T: Names, E> Past<T, E> {
    /// A copy.
    pub(crate) fn again(&self) -> Past<T, E>
        ensures { result ≡ self.now }
    {
        Past {
            seen: self.seen.again(),
            of: PhantomData,
        }
    }

    /// What begins with both.
    #[tactic(auto, using(crate::proofs::Beginnings::entries_in_begins))]
    pub(crate) fn joined(&self, other: &Past<T, E>) -> Past<T, E>
        ensures this { IsPrefix self.now result }
        ensures that { IsPrefix other.now result }
    {
        let mut both = self.seen.again();
        both.learn(&other.seen);
        Past {
            seen: both,
            of: PhantomData,
        }
    }
}
