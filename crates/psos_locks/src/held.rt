// What stands behind a lock.
ghost use Rattle.std.specs.Prelude.{◌≡◌, ◌==◌, ◌<◌, ◌^◌, [], ◌∷◌, ◌++◌, Some, true, false, length, IfErr, OnOk, OnErr};
ghost use Rattle.std.specs.Int.{bit_at};
ghost use Rattle.std.specs.Int.Bits.{bit_xor};
ghost use Rattle.psos_io.specs.Causes.{Rose};
ghost use Rattle.psos_limits.specs.declared.TheConstants.{TRACE_ROOM};
ghost use Rattle.psos_calls.specs.Language.Script.{IsWellFormed};
ghost use Rattle.psos_calls.specs.Locks.{lock_of, part_of};
ghost use Rattle.psos_model.specs.Replay.{boot_system};
ghost use Rattle.psos_core.specs.Faults.{CanFault};
ghost use Rattle.psos_journal.specs.Views.{new_side};
ghost use Rattle.psos_histories.specs.Pieces.{act_piece, can_piece};
ghost use Rattle.psos_histories.specs.Names.{member_of};
ghost use Rattle.psos_histories.specs.Grips.{IsFreeGrip, IsReplayed};
ghost use Rattle.psos_locks.specs.Opening.{IsAtBoot};

use crate::counted_pages::CountedPages;
use crate::part::Part;
use crate::run::Run;
use psos_calls::{Entry, LevelCall, LevelFault, Trace};
use psos_io::Store;
use psos_journal::{FaultsOf, Journal, Member, Pen};
use psos_procs::Mailbox;
use std::alloc::Global;
use std::marker::Model;
use std::sync::ledger::Share;

/// What stands behind a lock: a level's state or a mailbox, the lock's member of the journal, and whether it is broken.
/// Where it is not, the state is what the calls of its own member's entries under this lock leave, from boot
/// (docs/levels.md, "Locks").
#[derive(Drop)]
pub struct Held<T: Run, K: Part> {
    pub(crate) state: K,
    pub(crate) member: Member<T, Entry>,
    pub(crate) broken: bool,
}

impl<T: Run, K: Part> Model for Held<T, K> {
    ghost use Rattle.std.specs.Prelude.{Bool, length};
    ghost use Rattle.psos_calls.specs.declared.entry.Entry.{Entry};
    ghost use Rattle.psos_journal.specs.Views.{Side};
    ghost use Rattle.psos_model.specs.Replay.{boot_system};
    ghost use Rattle.psos_histories.specs.Grips.{IsFreeGrip};

    ghost Value = { K × Side Entry × Bool };

    ghost view = { λ h. (h.state, h.member, h.broken) };

    ghost invariant = { λ h. K.fits h.state (length T.script.users) × IsFreeGrip T.script (boot_system T.script) (record { lock = K.lock h.state; side = h.member; piece = K.piece h.state; broken = h.broken }) };
}

impl<T: Run> Held<T, Mailbox> {
    /// Whether a call is of the mailbox that lies under it.
    pub fn has_part(&self, users: u8, call: &LevelCall) -> bool
        requires users { users ≡ length T.script.users }
        ensures { result ≡ (part_of users call.now == self.now.0.number) }
    {
        let _users = users;
        self.state.has_part(call)
    }
}

impl<T: Run, B: Store> Held<T, CountedPages<T, B>> {
    /// A fault of the store beneath it is counted on both sides of the ledger.
    pub(crate) fn count_fault(&mut self, share: &mut Share<FaultsOf<T>>)
        requires failed { Rose T.faults_before (B.faults self.old.0.0.store) }
        requires one { share.old.parts ≡ 1 }
        ensures parts { share.new.parts ≡ share.old.parts }
        ensures counted { 0 < share.new.amount }
    {
        self.state.count(share);
    }
}

impl<T: Run, K: Part> Held<T, K> {
    /// What stands behind a lock before the first entry: what lies under it at boot, and the lock's member.
    pub(crate) fn new(state: K, member: Member<T, Entry>) -> Held<T, K>
        requires fits { K.fits state (length T.script.users) }
        requires at_boot { IsAtBoot T.script (K.lock state) (K.piece state) }
        requires member { member ≡ new_side (member_of (length T.script.users) (K.lock state)) }
        ensures { result ≡ (state, member, false) }
    {
        Held {
            state,
            member,
            broken: false,
        }
    }

    /// Its state. What it knows goes.
    pub(crate) fn into_state(self) -> K
        ensures { result ≡ self.0 }
    {
        let Held {
            state,
            member: _,
            broken: _,
        } = self;
        state
    }

    /// Whether it is broken. Where it is not, it is as its member's calls have left it.
    pub fn is_broken(&self) -> bool
        ensures broken { result ≡ self.now.2 }
        ensures fits { K.fits self.now.0 (length T.script.users) }
        ensures free { IsFreeGrip T.script (boot_system T.script) (record { lock = K.lock self.now.0; side = self.now.1; piece = K.piece self.now.0; broken = self.now.2 }) }
    {
        self.broken
    }

    /// Makes a call under its lock, and adds it to the trace with its answer. It counts as broken from then on, until
    /// the request closes, also where the call has an `Err`, which is why the call of its level has one.
    pub fn make(
        &mut self,
        alloc: Global,
        users: u8,
        call: &LevelCall,
        trace: &mut Trace,
    ) -> Result<(), LevelFault>
        requires users { users ≡ length T.script.users }
        requires lock { lock_of users call.now ≡ K.lock self.old.0 }
        requires can { can_piece (K.piece self.old.0) call.now }
        requires room { length trace.old < TRACE_ROOM }
        ensures left { OnOk result (K.piece self.new.0 ≡ (act_piece (K.piece self.old.0) call.now).0) }
        ensures traced { OnOk result (trace.new ≡ trace.old ++ record {
          level = (K.lock self.old.0).level;
          call = call.now;
          answer = (act_piece (K.piece self.old.0) call.now).1;
        } ∷ []) }
        ensures kept { OnErr result (K.piece self.new.0 ≡ K.piece self.old.0) }
        ensures untraced { OnErr result (trace.new ≡ trace.old) }
        ensures lock { K.lock self.new.0 ≡ K.lock self.old.0 }
        ensures rest { (self.new.1 ≡ self.old.1) × (self.new.2 ≡ true) }
        ensures why { IfErr result (CanFault call.now) }
        ensures failed { IfErr result (λ fault. fault ≡ LevelFault.Store → K.has_failed self.new.0) }
    {
        self.broken = true;
        self.state.make(alloc, users, call, trace)
    }

    /// The number of its member. A journal has at most 24.
    pub fn number(&self) -> u8
        requires script { IsWellFormed T.script }
        ensures number { result ≡ self.now.1.number }
        ensures few { result < 24 }
    {
        self.member.number()
    }

    /// Enters the entry of the open pen, with which its state is what its member's calls leave: it is not broken.
    pub(crate) fn settle(&mut self, journal: &mut Journal<T, Entry>, pen: &mut Pen<T>)
        requires pen { journal.old.left ≡ Some pen.old }
        requires named { bit_at pen.old self.old.1.number ≡ 1 }
        requires whole { IsReplayed T.script (boot_system T.script) (record { lock = K.lock self.old.0; side = record self.old.1 { past = journal.old.entries }; piece = K.piece self.old.0; broken = false }) }
        ensures journal { journal.new ≡ record journal.old { left = Some pen.new } }
        ensures pen { pen.new ≡ bit_xor pen.old (2 ^ self.old.1.number) }
        ensures held { self.new ≡ (self.old.0, record self.old.1 { past = journal.old.entries }, false) }
    {
        journal.enter(pen, &mut self.member);
        self.broken = false;
    }
}
