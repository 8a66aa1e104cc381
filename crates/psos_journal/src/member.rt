// A member of a journal.
ghost use Rattle.std.specs.Prelude.{◌≡◌, ◌+◌, ◌<◌, [], true, length, IfSome, IsNone, IsOk, ◌↔◌};
ghost use Rattle.psos_journal.specs.Counts.{number_of, amount_of};
ghost use Rattle.psos_journal.specs.Views.{list_of, new_side};

use crate::mark::Mark;
use crate::names::Names;
use crate::past::Past;
use crate::receipt::Receipt;
use crate::told_of::ToldOf;
use std::alloc::{AllocError, Global};
use std::marker::Model;
use std::sync::ledger::{Book, Share};

/// Whoever an entry of a journal may name. A member has a list, the entries that name it, in order; it
/// lies anywhere, also behind a lock of its own, and meets the journal where both are at hand. It is
/// seen as its number, the journal's entries up to the last that names it, and whether it was told of a
/// store fault (docs/levels.md, "Journal").
#[derive(Drop)]
pub struct Member<T: Names, E> {
    pub(crate) number: u8,
    pub(crate) mark: Mark<T>,
    pub(crate) len: u32,
    pub(crate) past: Past<T, E>,
    pub(crate) told: bool,
    pub(crate) tale: Share<ToldOf<T>>,
}

impl<T: Names, E> Model for Member<T, E> {
    ghost use Rattle.psos_journal.specs.Views.{Side};
    ghost use Rattle.psos_journal.specs.Counts.{number_of, amount_of};
    ghost use Rattle.psos_journal.specs.Holds.{Members};

    ghost Value = { Side E };

    ghost view = { λ m. record { number = m.number; past = m.past; told = m.told } };

    ghost invariant = { λ m. Members m.number (number_of m.mark) (amount_of m.mark) m.len m.past m.told m.tale.parts m.tale.amount };
}

impl<T: Names, E> Member<T, E> {
    /// A member with no entry.
    pub(crate) fn new(
        number: u8,
        mark: Mark<T>,
        past: Past<T, E>,
        tale: Share<ToldOf<T>>,
    ) -> Member<T, E>
        requires mark { (number_of mark ≡ number) × (amount_of mark ≡ 0) × (number < 24) }
        requires past { past ≡ [] }
        requires tale { (tale.parts ≡ 1) × (tale.amount ≡ 0) }
        ensures { result ≡ new_side number }
    {
        Member {
            number,
            mark,
            len: 0,
            past,
            told: false,
            tale,
        }
    }

    /// The member's number. The journal that it is of counts its members from 0.
    pub fn number(&self) -> u8
        ensures { result ≡ self.now.number }
    {
        self.number
    }

    /// Spare room for one entry. An entry takes no memory in a member, so there is no `Err`, and
    /// `_alloc` is for members that keep their entries themselves.
    pub fn room(&mut self, _alloc: Global) -> Result<(), AllocError>
        ensures always { IsOk result }
        ensures same { self.new ≡ self.old }
    {
        Ok(())
    }

    /// What the member knows of its last entry. None exactly where it has no entry. It takes no memory.
    pub fn receipt(&self) -> Option<Receipt<T, E>>
        ensures some { IfSome result (λ r. (r.past ≡ self.now.past) × (r.stamp + 1 ≡ length r.past)) }
        ensures none { IsNone result ↔ (list_of self.now ≡ []) }
    {
        if self.len == 0 {
            return None;
        }
        Some(Receipt {
            stamp: self.len - 1,
            past: self.past.again(),
        })
    }

    /// Whether a `Journal::tell` of this member answered `Store`.
    pub fn told(&self) -> bool
        ensures { result ≡ self.now.told }
    {
        self.told
    }

    /// The member is told. This counts in the ledger of told members.
    pub(crate) fn hear(&mut self, told: &mut Book<ToldOf<T>>)
        ensures { self.new ≡ record self.old { told = true } }
    {
        if self.told {
            return;
        }
        told.add(&mut self.tale, 1);
        self.told = true;
    }
}
