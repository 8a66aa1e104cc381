// What may lie under a lock.
ghost use Rattle.std.specs.Prelude.{◌≡◌, ◌<◌, [], ◌∷◌, ◌++◌, length, IfErr, OnOk, OnErr};
ghost use Rattle.psos_limits.specs.declared.TheConstants.{TRACE_ROOM};
ghost use Rattle.psos_calls.specs.Locks.{lock_of};
ghost use Rattle.psos_core.specs.Faults.{CanFault};
ghost use Rattle.psos_histories.specs.Pieces.{act_piece, can_piece};

use crate::counted_pages::CountedPages;
use crate::run::Run;
use psos_calls::{LevelAnswer, LevelCall, LevelFault, Trace};
use psos_caps::Issuer;
use psos_codes::Codes;
use psos_dirs::Dirs;
use psos_io::Store;
use psos_life::Life;
use psos_procs::Mailbox;
use psos_segs::Segs;
use psos_types::Types;
use std::alloc::Global;

/// What may lie under a lock: the state of a level, or one mailbox. It is seen as the lock and what it is of all levels
/// (docs/levels.md, "Locks").
pub trait Part {
    ghost use Rattle.std.specs.Prelude.{ℕ};
    ghost use Rattle.psos_calls.specs.declared.lock_id.LockId.{LockId};
    ghost use Rattle.psos_histories.specs.Pieces.{Piece};

    // The lock under which it lies.
    ghost lock: { Self → LockId };

    // What it is of all levels.
    ghost piece: { Self → Piece };

    // It is of a run of so many users.
    ghost fits: { Self → ℕ → Type 0 };

    // The store beneath it failed since the run began.
    ghost has_failed: { Self → Type 0 };

    /// Makes a call under its lock, where the call's condition holds, and adds it to a trace that has room, with its
    /// answer. A page that is read is copied once, into the trace. `Err` for want of memory, of a call that adds a row
    /// alone, or for a fault of the store, of a call of level 7 alone: nothing is changed, and the trace is as it was.
    fn make(
        &mut self,
        alloc: Global,
        users: u8,
        call: &LevelCall,
        trace: &mut Trace,
    ) -> Result<(), LevelFault>
        requires fits { fits self.old users }
        requires lock { lock_of users call.now ≡ lock self.old }
        requires can { can_piece (piece self.old) call.now }
        requires room { length trace.old < TRACE_ROOM }
        ensures fits { fits self.new users }
        ensures lock { lock self.new ≡ lock self.old }
        ensures left { OnOk result (piece self.new ≡ (act_piece (piece self.old) call.now).0) }
        ensures traced { OnOk result (trace.new ≡ trace.old ++ record {
          level = (lock self.old).level;
          call = call.now;
          answer = (act_piece (piece self.old) call.now).1;
        } ∷ []) }
        ensures kept { OnErr result (piece self.new ≡ piece self.old) }
        ensures untraced { OnErr result (trace.new ≡ trace.old) }
        ensures why { IfErr result (CanFault call.now) }
        ensures failed { IfErr result (λ fault. fault ≡ LevelFault.Store → has_failed self.new) };
}

impl Part for Codes {
    ghost use Rattle.psos_calls.specs.declared.level.Level.TheVariants.{L13};
    ghost use Rattle.psos_histories.specs.Pieces as pieces;

    ghost lock = { λ s. record { level = L13; part = 0 } };

    ghost piece = { λ s. pieces.Codes s };

    ghost fits = { λ s n. Unit {0} };

    ghost has_failed = { λ s. ⊥ };

    fn make(
        &mut self,
        alloc: Global,
        _users: u8,
        call: &LevelCall,
        trace: &mut Trace,
    ) -> Result<(), LevelFault> {
        let answer = self.act(alloc, call)?;
        trace.push(call, answer);
        Ok(())
    }
}

impl Part for Mailbox {
    ghost use Rattle.std.specs.Prelude.{◌≡◌, Some};
    ghost use Rattle.psos_calls.specs.declared.level.Level.TheVariants.{L12};
    ghost use Rattle.psos_histories.specs.Pieces as pieces;

    ghost lock = { λ b. record { level = L12; part = b.number } };

    ghost piece = { λ b. pieces.Box b.number (Some b.words) };

    ghost fits = { λ b n. b.users ≡ n };

    ghost has_failed = { λ b. ⊥ };

    fn make(
        &mut self,
        _alloc: Global,
        _users: u8,
        call: &LevelCall,
        trace: &mut Trace,
    ) -> Result<(), LevelFault> {
        let answer = self.act(call);
        trace.push(call, answer);
        Ok(())
    }
}

impl Part for Life {
    ghost use Rattle.psos_calls.specs.declared.level.Level.TheVariants.{L11};
    ghost use Rattle.psos_histories.specs.Pieces as pieces;

    ghost lock = { λ s. record { level = L11; part = 0 } };

    ghost piece = { λ s. pieces.Life s };

    ghost fits = { λ s n. Unit {0} };

    ghost has_failed = { λ s. ⊥ };

    fn make(
        &mut self,
        alloc: Global,
        _users: u8,
        call: &LevelCall,
        trace: &mut Trace,
    ) -> Result<(), LevelFault> {
        let answer = self.act(alloc, call)?;
        trace.push(call, answer);
        Ok(())
    }
}

impl Part for Dirs {
    ghost use Rattle.psos_calls.specs.declared.level.Level.TheVariants.{L10};
    ghost use Rattle.psos_histories.specs.Pieces as pieces;

    ghost lock = { λ s. record { level = L10; part = 0 } };

    ghost piece = { λ s. pieces.Dirs s };

    ghost fits = { λ s n. Unit {0} };

    ghost has_failed = { λ s. ⊥ };

    fn make(
        &mut self,
        alloc: Global,
        _users: u8,
        call: &LevelCall,
        trace: &mut Trace,
    ) -> Result<(), LevelFault> {
        let answer = self.act(alloc, call)?;
        trace.push(call, answer);
        Ok(())
    }
}

impl Part for Types {
    ghost use Rattle.psos_calls.specs.declared.level.Level.TheVariants.{L9};
    ghost use Rattle.psos_histories.specs.Pieces as pieces;

    ghost lock = { λ s. record { level = L9; part = 0 } };

    ghost piece = { λ s. pieces.Types s };

    ghost fits = { λ s n. Unit {0} };

    ghost has_failed = { λ s. ⊥ };

    fn make(
        &mut self,
        alloc: Global,
        _users: u8,
        call: &LevelCall,
        trace: &mut Trace,
    ) -> Result<(), LevelFault> {
        let answer = self.act(alloc, call)?;
        trace.push(call, answer);
        Ok(())
    }
}

impl Part for Segs {
    ghost use Rattle.psos_calls.specs.declared.level.Level.TheVariants.{L8};
    ghost use Rattle.psos_histories.specs.Pieces as pieces;

    ghost lock = { λ s. record { level = L8; part = 0 } };

    ghost piece = { λ s. pieces.Segs s };

    ghost fits = { λ s n. Unit {0} };

    ghost has_failed = { λ s. ⊥ };

    fn make(
        &mut self,
        alloc: Global,
        _users: u8,
        call: &LevelCall,
        trace: &mut Trace,
    ) -> Result<(), LevelFault> {
        let answer = self.act(alloc, call)?;
        trace.push(call, answer);
        Ok(())
    }
}

impl<T: Run, B: Store> Part for CountedPages<T, B> {
    ghost use Rattle.psos_io.specs.Causes.{Rose};
    ghost use Rattle.psos_calls.specs.declared.level.Level.TheVariants.{L7};
    ghost use Rattle.psos_histories.specs.Pieces as pieces;

    ghost lock = { λ s. record { level = L7; part = 0 } };

    ghost piece = { λ s. pieces.Slots s.0.slots };

    ghost fits = { λ s n. Unit {0} };

    ghost has_failed = { λ s. Rose T.faults_before (B.faults s.0.store) };

    fn make(
        &mut self,
        alloc: Global,
        _users: u8,
        call: &LevelCall,
        trace: &mut Trace,
    ) -> Result<(), LevelFault> {
        if let LevelCall::PageGet { page } = *call {
            let Ok(()) = self.pages.bring(page) else {
                return Err(LevelFault::Store);
            };
            trace.push_page(call, self.pages.page(page));
            return Ok(());
        }
        let answer = self.pages.answer(alloc, call)?;
        trace.push(call, answer);
        Ok(())
    }
}

impl Part for Issuer {
    ghost use Rattle.psos_calls.specs.declared.level.Level.TheVariants.{L0};
    ghost use Rattle.psos_histories.specs.Pieces as pieces;

    ghost lock = { λ s. record { level = L0; part = 0 } };

    ghost piece = { λ s. pieces.Next s };

    ghost fits = { λ s n. Unit {0} };

    ghost has_failed = { λ s. ⊥ };

    fn make(
        &mut self,
        _alloc: Global,
        _users: u8,
        call: &LevelCall,
        trace: &mut Trace,
    ) -> Result<(), LevelFault> {
        trace.push(call, LevelAnswer::New(self.fresh()));
        Ok(())
    }
}
