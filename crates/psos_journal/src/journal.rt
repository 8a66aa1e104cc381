// The journal of a run.
ghost use Rattle.std.specs.Prelude.{◌≡◌, ◌+◌, ◌<◌, ◌^◌, ◌++◌, ◌∷◌, [], ℕ, List, true, length, Some, None, IfOk, OnOk, OnErr, IfErr, slice_get, unwrap_or, vec_len};
ghost use Rattle.std.specs.Int.{bit_at};
ghost use Rattle.std.specs.Int.Bits.{bit_xor};
ghost use mathlib.Core.List.{IsPrefix};
ghost use Rattle.psos_journal.specs.Members.{entries_of, named};
ghost use Rattle.psos_journal.specs.Views.{AreNamed, Side, list_of, new_side, told_after};
ghost use Rattle.psos_journal.specs.Faults.{IsFault};
ghost use Rattle.psos_journal.specs.declared.stop_cause.StopCause.TheVariants.{Store};

use crate::append::append;
use crate::begin_fault::BeginFault;
use crate::books::Books;
use crate::cells::Cells;
use crate::entries::Entries;
use crate::faults_of::FaultsOf;
use crate::ground::Ground;
use crate::member::Member;
use crate::names::Names;
use crate::new_members::NewMembers;
use crate::opening::open_all;
use crate::past::Past;
use crate::pen::Pen;
use crate::receipt::Receipt;
use crate::stop_cause::StopCause;
use crate::tally::Tally;
use crate::told_of::ToldOf;
use std::alloc::{AllocError, Global};
use std::marker::{Model, PhantomData};
use std::sync::ledger::Book;

/// The entries of a run in their one order, each with the members that it names, and the first cause of
/// a stop. An entry comes by `begin`, is entered into each member that it names, and is closed by
/// `finish`. A journal is seen as its entries with their names (bit i names member i), its limit, its
/// number of members, the first cause, and, where a pen is open, the bits of the members that are still
/// to be entered (docs/levels.md, "Journal").
#[derive(Drop)]
pub struct Journal<T: Names, E> {
    pub(crate) entries: Entries<E>,
    pub(crate) past: Past<T, E>,
    pub(crate) cells: Cells<T, E>,
    pub(crate) books: Books<T>,
    pub(crate) told: Book<ToldOf<T>>,
    pub(crate) room: u32,
    pub(crate) members: u8,
    pub(crate) stopped: Option<StopCause>,
    pub(crate) left: Option<u64>,
}

impl<T: Names, E> Model for Journal<T, E> {
    ghost use Rattle.psos_journal.specs.Views.{JournalState};
    ghost use Rattle.psos_journal.specs.Counts.{totals};
    ghost use Rattle.psos_journal.specs.Holds.{Journals};

    ghost Value = { JournalState E };

    ghost view = { λ j. record { entries = j.past; room = j.room; members = j.members; stopped = j.stopped; left = j.left } };

    ghost invariant = { λ j. Journals j.entries j.cells j.past (totals j.books) j.room j.left j.told.total j.stopped };
}

impl<T: Names, E> Journal<T, E> {
    /// Takes an entry and the members that it names, and gives the pen with which it is entered. `Err`
    /// exactly where `stop` was called, and else only where memory runs out: it has the entry, and the
    /// journal is unchanged. Cells take no memory of `_alloc`; entries take it from that of `start`.
    pub fn begin(&mut self, _alloc: Global, entry: E, names: u64) -> Result<Pen<T>, BeginFault<E>>
        requires names { names < 2 ^ self.old.members }
        requires room { length self.old.entries < self.old.room }
        requires spent { self.old.left ≡ None }
        ensures ok { IfOk result (λ pen. (pen ≡ names) × (self.new ≡ record self.old { entries = self.old.entries ++ (entry, names) ∷ []; left = Some names })) }
        ensures open { OnOk result (self.old.stopped ≡ None) }
        ensures err { OnErr result (self.new ≡ self.old) }
        ensures fault { IfErr result (IsFault self.old.stopped entry) }
    {
        if let Some(cause) = self.stopped {
            return Err(BeginFault::Stopped(cause, entry));
        }
        if let Err(entry) = append(
            &mut self.entries,
            &mut self.cells,
            &mut self.past,
            entry,
            names,
        ) {
            return Err(BeginFault::Memory(AllocError, entry));
        }
        self.left = Some(names);
        Ok(Pen {
            left: names,
            of: PhantomData,
        })
    }

    /// Enters the entry of the open pen into a member that it names and has not entered.
    pub fn enter(&mut self, pen: &mut Pen<T>, member: &mut Member<T, E>)
        requires pen { self.old.left ≡ Some pen.old }
        requires named { bit_at pen.old member.old.number ≡ 1 }
        ensures journal { self.new ≡ record self.old { left = Some pen.new } }
        ensures pen { pen.new ≡ bit_xor pen.old (2 ^ member.old.number) }
        ensures member { member.new ≡ record member.old { past = self.old.entries } }
        ensures list { (front : List (E × ℕ)) (last : E × ℕ) → self.old.entries ≡ front ++ last ∷ [] → list_of member.new ≡ list_of member.old ++ last.0 ∷ [] }
    {
        let _both = self.past.joined(&member.past);
        self.books.step(&mut member.mark, 1);
        pen.left ^= 1 << member.number;
        self.left = Some(pen.left);
        member.len = self.cells.len();
        member.past = self.past.again();
    }

    /// Closes the entry of the open pen, which was entered into all members that it names, and gives its
    /// stamp: its position among the entries.
    pub fn finish(&mut self, pen: Pen<T>) -> u32
        requires pen { self.old.left ≡ Some pen }
        requires entered { pen ≡ 0 }
        ensures stamp { result + 1 ≡ length self.new.entries }
        ensures journal { self.new ≡ record self.old { left = None } }
    {
        // The pen is spent.
        let _ = pen;
        self.left = None;
        self.cells.len() - 1
    }

    /// The member's list is the entries that name it, in order. A member that was told shows that the
    /// first cause of a stop was the store. Nothing changes.
    pub fn meets(&mut self, member: &mut Member<T, E>)
        requires spent { self.old.left ≡ None }
        ensures same { (self.new ≡ self.old) × (member.new ≡ member.old) }
        ensures meets { list_of member.old ≡ named member.old.number self.old.entries }
        ensures told { member.old.told ≡ true → self.old.stopped ≡ Some Store }
    {
        let _both = self.past.joined(&member.past);
        self.books.step(&mut member.mark, 0);
        self.told.audit(&mut member.tale);
    }

    /// The entries that the receipt knows are the first of this journal. Nothing changes.
    pub fn agree(&mut self, receipt: &Receipt<T, E>)
        ensures same { self.new ≡ self.old }
        ensures agrees { IsPrefix receipt.now.past self.old.entries }
    {
        self.cells.agree(&self.past, &receipt.past);
    }

    /// Stops the journal. The first cause stays, and is the answer.
    pub fn stop(&mut self, cause: StopCause) -> StopCause
        ensures first { result ≡ unwrap_or self.old.stopped cause }
        ensures journal { self.new ≡ record self.old { stopped = Some result } }
    {
        if let Some(first) = self.stopped {
            return first;
        }
        self.stopped = Some(cause);
        cause
    }

    /// How many entries there are.
    pub fn len(&self) -> u32
        ensures { result ≡ length self.now.entries }
    {
        self.cells.len()
    }

    /// The first cause of a stop. None exactly where `stop` was never called.
    pub fn stopped(&self) -> Option<StopCause>
        ensures { result ≡ self.now.stopped }
    {
        self.stopped
    }

    /// The answer of `stopped`. Where it is `Store`, the member is told from then on.
    pub fn tell(&mut self, member: &mut Member<T, E>) -> Option<StopCause>
        ensures answer { result ≡ self.old.stopped }
        ensures journal { self.new ≡ self.old }
        ensures member { member.new ≡ record member.old { told = told_after member.old.told result } }
    {
        let Some(StopCause::Store) = self.stopped else {
            return self.stopped;
        };
        member.hear(&mut self.told);
        Some(StopCause::Store)
    }

    /// The empty journal of a ground, its members in order, and the tally of store faults. Its names
    /// have to be those of the ground. `Err` only where memory runs out: the ground goes.
    pub fn start(
        alloc: Global,
        ground: Ground<E>,
    ) -> Result<(Journal<T, E>, Vec<Member<T, E>>, Tally<T>), AllocError>
        requires { AreNamed ground T.book T.counts T.told T.faults }
        ensures journal { IfOk result (λ r. r.0 ≡ record { entries = []; room = ground.room; members = ground.members; stopped = None; left = None }) }
        ensures members { IfOk result (λ r. vec_len r.1 ≡ ground.members) }
        ensures order { IfOk result (λ r. (k : ℕ) (m : Side E) → slice_get r.1.items k ≡ Some m → m ≡ new_side k) }
        ensures tally { IfOk result (λ r. (r.2.book.total ≡ 0) × (r.2.share.amount ≡ 0) × (r.2.share.parts ≡ 1)) }
    {
        // Nothing fails behind this.
        let all = Vec::with_capacity(alloc, 24)?;
        let Ground {
            count,
            next,
            seen,
            counts,
            told,
            faults,
            members,
            room,
        } = ground;
        let past = Past {
            seen,
            of: PhantomData,
        };
        let cells = Cells {
            count,
            next,
            full: 0,
            of: PhantomData,
        };
        let (told, tales) = told.open::<ToldOf<T>>();
        let (book, share) = faults.open::<FaultsOf<T>>();
        let mut row = NewMembers {
            members: all,
            past: past.again(),
            tales,
            next: 0,
        };
        let books = open_all(counts, &mut row);
        let journal = Journal {
            entries: Entries::empty(alloc),
            past,
            cells,
            books,
            told,
            room,
            members,
            stopped: None,
            left: None,
        };
        Ok((journal, row.into_members(members), Tally { book, share }))
    }

    /// All entries, in their order. Each member's list is the entries that name it, and a member that
    /// was told shows that the first cause of a stop was the store. It takes no memory.
    pub fn into_entries(mut self, mut members: Vec<Member<T, E>>) -> Entries<E>
        requires spent { self.left ≡ None }
        ensures entries { result ≡ entries_of self.entries }
        ensures lists { (k : ℕ) (m : Side E) → slice_get members.items k ≡ Some m → list_of m ≡ named m.number self.entries }
        ensures told { (k : ℕ) (m : Side E) → slice_get members.items k ≡ Some m → m.told ≡ true → self.stopped ≡ Some Store }
    {
        for k in 0..members.len() {
            let member = &mut members[k];
            self.meets(member);
        }
        let Journal { entries, .. } = self;
        entries
    }
}
