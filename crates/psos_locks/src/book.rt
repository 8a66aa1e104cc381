// The journal behind its lock.
ghost use Rattle.std.specs.Prelude.{◌≡◌, ◌<◌, [], None, Some, length, unwrap_or, is_some, true, IfSome, IfNone};
ghost use mathlib.Core.List.{IsPrefix};
ghost use Rattle.psos_limits.specs.declared.TheConstants.{MOST_REQUESTS};
ghost use Rattle.psos_journal.specs.Members.{entries_of, named};
ghost use Rattle.psos_journal.specs.Views.{list_of, told_after};
ghost use Rattle.psos_histories.specs.Names.{members_for};
ghost use Rattle.psos_locks.specs.Ending.{MayHaveStopped};
ghost use Rattle.psos_locks.specs.Faults.{IsShared};
ghost use Rattle.psos_locks.specs.Grips.{slots_of};
ghost use Rattle.psos_locks.specs.Places.{HasFailed};
ghost use Rattle.psos_locks.specs.Runs.{IsRun, Knows, CanPut, HasPut};
ghost use Rattle.psos_locks.specs.Users.{past_of};

use crate::hands::Hands;
use crate::held::Held;
use crate::part::Part;
use crate::run::Run;
use psos_calls::Entry;
use psos_io::Store;
use psos_journal::{Entries, FaultsOf, Journal, Member, Receipt, StopCause};
use std::alloc::Global;
use std::marker::Model;
use std::sync::ledger::Share;

/// The journal behind its lock: its entries are faithful and legal, it has a member for each user and each lock, and
/// room for all that a run can record. Beside it lies its side of the ledger of store faults, in which there is one
/// where it was stopped for the store (docs/levels.md, "Journal").
#[derive(Drop)]
pub struct Book<T: Run> {
    pub(crate) journal: Journal<T, Entry>,
    pub(crate) faults: Share<FaultsOf<T>>,
}

impl<T: Run> Model for Book<T> {
    ghost use Rattle.std.specs.Prelude.{◌≡◌, None, length};
    ghost use Rattle.psos_limits.specs.declared.TheConstants.{MOST_REQUESTS};
    ghost use Rattle.psos_calls.specs.declared.entry.Entry.{Entry};
    ghost use Rattle.psos_journal.specs.Views.{JournalState};
    ghost use Rattle.psos_histories.specs.Names.{members_for};
    ghost use Rattle.psos_locks.specs.Faults.{IsShared};
    ghost use Rattle.psos_locks.specs.Runs.{IsRun, IsBook};

    ghost Value = { JournalState Entry };

    ghost view = { λ b. b.journal };

    ghost invariant = { λ b. IsBook T.script b.journal × (b.faults.parts ≡ 1) × IsShared b.journal.stopped b.faults.amount };
}

impl<T: Run> Book<T> {
    /// The journal of a run that begins, and its side of the ledger of store faults, in which there is none.
    pub fn new(journal: Journal<T, Entry>, faults: Share<FaultsOf<T>>) -> Book<T>
        requires journal { journal ≡ record {
          entries = [];
          room = MOST_REQUESTS;
          members = members_for (length T.script.users);
          stopped = None;
          left = None;
        } }
        requires faults { faults.parts ≡ 1 }
        ensures { result ≡ journal }
    {
        Book { journal, faults }
    }

    /// The member behind a lock has the entries that name it. Nothing changes.
    pub fn meet<K: Part>(&mut self, held: &mut Held<T, K>)
        ensures same { (self.new ≡ self.old) × (held.new ≡ held.old) }
        ensures met { list_of held.old.1 ≡ named held.old.1.number self.old.entries }
    {
        self.journal.meets(&mut held.member);
    }

    /// The entries that a user's member knows are the first ones, and it has all that name it. Nothing changes.
    pub fn know(&mut self, member: &mut Member<T, Entry>)
        requires latest { list_of member.old ≡ [] → member.old.past ≡ [] }
        ensures same { (self.new ≡ self.old) × (member.new ≡ member.old) }
        ensures knows { Knows member.old self.old.entries }
        ensures told { member.old.told ≡ true → self.old.stopped ≡ Some StopCause.Store }
        ensures run { IsRun T.script self.old.entries }
        ensures limits { (self.old.room ≡ MOST_REQUESTS) × (self.old.members ≡ members_for (length T.script.users)) }
    {
        self.journal.meets(member);
        match member.receipt() {
            Some(receipt) => self.journal.agree(&receipt),
            None => {}
        }
    }

    /// What a user knows of another one's last entry, or that it has none, is of the first entries. Nothing changes.
    pub(crate) fn agree(&mut self, receipt: &Option<Receipt<T, Entry>>)
        ensures same { self.new ≡ self.old }
        ensures first { IsPrefix (past_of receipt.now) self.old.entries }
    {
        match receipt {
            Some(receipt) => self.journal.agree(receipt),
            None => {}
        }
    }

    /// Stops the run, which is stopped for its first cause from then on. That is the answer, and where it is the store,
    /// the member is told.
    pub(crate) fn stop<'a, B: Store>(
        &mut self,
        member: &mut Member<T, Entry>,
        hands: &mut Hands<'a, T, B>,
        cause: StopCause,
    ) -> StopCause
        requires failed { cause ≡ StopCause.Store → HasFailed T.faults_before B.faults hands.old.pages }
        ensures member { member.new ≡ record member.old { told = told_after member.old.told (Some result) } }
        ensures first { result ≡ unwrap_or self.old.stopped cause }
        ensures stopped { self.new ≡ record self.old { stopped = Some result } }
    {
        if let StopCause::Store = cause {
            hands.count(&mut self.faults);
        }
        let first = self.journal.stop(cause);
        let _first = self.journal.tell(member);
        first
    }

    /// Stops the run for want of memory, where it was not stopped before.
    pub(crate) fn give_up(&mut self)
        ensures kept { MayHaveStopped self.old self.new }
        ensures stopped { self.new.stopped ≡ None → ⊥ }
    {
        self.journal.stop(StopCause::Memory);
    }

    /// Whether the run was stopped.
    pub(crate) fn is_stopped(&self) -> bool
        ensures { result ≡ is_some self.now.stopped }
    {
        self.journal.stopped().is_some()
    }

    /// The entries, why the run was stopped, if it was, and this side of the ledger of store faults. It takes no memory.
    pub fn end(self, alloc: Global) -> (Entries<Entry>, Option<StopCause>, Share<FaultsOf<T>>)
        ensures entries { result.0 ≡ entries_of self.entries }
        ensures stopped { result.1 ≡ self.stopped }
        ensures run { IsRun T.script self.entries }
        ensures faults { IsShared self.stopped result.2.amount }
    {
        let Book { journal, faults } = self;
        let stopped = journal.stopped();
        (journal.into_entries(Vec::new(alloc)), stopped, faults)
    }

    /// Puts the entry of a request that closes, which names its user and the locks that it holds; none of them is
    /// broken any more. Its stamp. None where the run is stopped or memory runs out: no entry is added.
    pub(crate) fn close<'a, B: Store>(
        &mut self,
        alloc: Global,
        entry: Entry,
        names: u64,
        member: &mut Member<T, Entry>,
        hands: &mut Hands<'a, T, B>,
    ) -> Option<u32>
        requires closes { CanPut T.script self.old member.old.number entry names (slots_of hands.old) }
        ensures put { IfSome result (λ stamp. HasPut self.old member.old entry names stamp self.new member.new) }
        ensures kept { IfNone result ((self.new ≡ self.old) × (member.new ≡ member.old)) }
    {
        put(&mut self.journal, alloc, entry, names, member, hands)
    }
}

// Puts an entry that names a user and the locks that it holds.
fn put<'a, T: Run, B: Store>(
    journal: &mut Journal<T, Entry>,
    alloc: Global,
    entry: Entry,
    names: u64,
    member: &mut Member<T, Entry>,
    hands: &mut Hands<'a, T, B>,
) -> Option<u32>
    requires spent { journal.old.left ≡ None }
    requires closes { CanPut T.script journal.old member.old.number entry names (slots_of hands.old) }
    ensures put { IfSome result (λ stamp. HasPut journal.old member.old entry names stamp journal.new member.new) }
    ensures kept { IfNone result ((journal.new ≡ journal.old) × (member.new ≡ member.old)) }
{
    let Ok(mut pen) = journal.begin(alloc, entry, names) else {
        return None;
    };
    hands.settle(journal, &mut pen);
    journal.enter(&mut pen, member);
    Some(journal.finish(pen))
}
