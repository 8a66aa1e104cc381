// What a journal starts from.
ghost use Rattle.std.specs.Prelude.{◌≡◌, ◌≤◌, IfOk};

use crate::blanks::Blanks;
use crate::law::Law;
use crate::steps::make;
use logbook::{Pen, Seen, Start, Word};
use std::alloc::{AllocError, Global};
use std::marker::Model;
use std::sync::ledger::Blank;

/// The cells and ledgers of a journal that is not made yet. A run makes its ground first, and then
/// calls a function that is generic over `Names`, with names that are these. It is seen as the number of
/// members, the limit on entries, and what the cells and the ledgers are called
/// (docs/levels.md, "Journal").
#[derive(Drop)]
pub struct Ground<E> {
    pub(crate) count: Word<Option<(E, u64)>, u64, Law>,
    pub(crate) next: Pen,
    pub(crate) seen: Seen<Option<(E, u64)>, u64, Law>,
    pub(crate) counts: Blanks,
    pub(crate) told: Blank,
    pub(crate) faults: Blank,
    pub(crate) members: u8,
    pub(crate) room: u32,
}

impl<E> Model for Ground<E> {
    ghost use Rattle.psos_journal.specs.Counts.{names_of};
    ghost use Rattle.psos_journal.specs.Grounds.{IsGround};
    ghost use Rattle.psos_journal.specs.Views.{Ready};

    ghost Value = { Ready };

    ghost view = { λ g. record { members = g.members; room = g.room; book = g.seen.book; counts = names_of g.counts; told = g.told.name; faults = g.faults.name } };

    ghost invariant = { λ g. IsGround g.count g.next.book g.next.nib g.seen.book g.seen.log g.told.parts g.faults.parts g.members g.room };
}

impl<E> Ground<E> {
    /// The ground of a journal of so many members, that takes so many entries. Its cells are made one
    /// by one as entries come, so the first alone is made here, and takes nothing of `_alloc`. `Err` only
    /// where memory runs out.
    pub fn new(_alloc: Global, members: u8, room: u32) -> Result<Ground<E>, AllocError>
        requires members { (1 ≤ members) × (members ≤ 24) }
        requires room { (1 ≤ room) × (room ≤ 32768) }
        ensures { IfOk result (λ g. (g.members ≡ members) × (g.room ≡ room)) }
    {
        let (seen, mut first, _spare) = Seen::open(Start::alone(), 2, 0);
        let count = Word::tracked(2, &mut first);
        let Some(next) = make(&count, &seen, 2) else {
            return Err(AllocError);
        };
        Ok(Ground {
            count,
            next,
            seen,
            counts: Blanks::new(),
            told: Blank::new(24),
            faults: Blank::new(1),
            members,
            room,
        })
    }
}
