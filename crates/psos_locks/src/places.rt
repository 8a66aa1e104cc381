// One place of the locks that a request holds: a lock, or none.
ghost use Rattle.std.specs.Prelude.{◌≡◌, ◌<◌, [], ◌∷◌, ◌++◌, length, Some, option_map, IfSome, IfErr, OnOk};
ghost use Rattle.std.specs.Sync.Mutex.{mutex_guard_value};
ghost use Rattle.psos_limits.specs.declared.TheConstants.{TRACE_ROOM};
ghost use Rattle.psos_calls.specs.Language.Script.{IsWellFormed};
ghost use Rattle.psos_calls.specs.Locks.{lock_of};
ghost use Rattle.psos_core.specs.Faults.{CanFault};
ghost use Rattle.psos_journal.specs.Members.{named};
ghost use Rattle.psos_journal.specs.Views.{list_of};
ghost use Rattle.psos_histories.specs.Requests.{called_one};
ghost use Rattle.psos_locks.specs.Grips.{grip_by};
ghost use Rattle.psos_locks.specs.Places.{step_of, named_by, CanMake, IsSomeThat, MaySettleOne};

use crate::book::Book;
use crate::held::Held;
use crate::part::Part;
use crate::run::Run;
use psos_calls::{Entry, LevelCall, LevelFault, Trace};
use psos_journal::{Journal, Pen};
use std::alloc::Global;
use std::sync::MutexGuard;

/// The member behind a lock, where that is held, has the entries that name it. Nothing changes.
pub(crate) fn meet_one<'a, T: Run, K: Part>(
    book: &mut Book<T>,
    place: &mut Option<MutexGuard<'a, Held<T, K>>>,
)
    ensures book { book.new ≡ book.old }
    ensures same { place.new ≡ place.old }
    ensures met { IfSome place.old (λ g. list_of (mutex_guard_value g).1 ≡ named (mutex_guard_value g).1.number book.old.entries) }
{
    match place {
        Some(held) => book.meet(held),
        None => {}
    }
}

/// Makes a call under a lock, which is held, and adds it to the trace with its answer. `Err` where the level's own
/// call has one.
pub(crate) fn make_one<'a, T: Run, K: Part>(
    alloc: Global,
    users: u8,
    call: &LevelCall,
    trace: &mut Trace,
    place: &mut Option<MutexGuard<'a, Held<T, K>>>,
) -> Result<(), LevelFault>
    requires users { users ≡ length T.script.users }
    requires can { CanMake (lock_of users call.now) call.now (option_map (grip_by (λ s. K.lock s) (λ s. K.piece s)) place.old) }
    requires room { length trace.old < TRACE_ROOM }
    ensures called { OnOk result (option_map (grip_by (λ s. K.lock s) (λ s. K.piece s)) place.new
        ≡ option_map (λ g. called_one g call.now) (option_map (grip_by (λ s. K.lock s) (λ s. K.piece s)) place.old)) }
    ensures traced { OnOk result (IfSome (option_map (grip_by (λ s. K.lock s) (λ s. K.piece s)) place.old) (λ g. trace.new ≡ trace.old ++ step_of g call.now ∷ [])) }
    ensures why { IfErr result (CanFault call.now) }
    ensures failed { IfErr result (λ fault. fault ≡ LevelFault.Store → IsSomeThat place.new (λ g. K.has_failed (mutex_guard_value g).0)) }
{
    match place {
        Some(held) => held.make(alloc, users, call, trace),
        None => unreachable!(),
    }
}

/// The bits of the names, and that of the member behind a lock, where that is held.
pub(crate) fn name_one<'a, T: Run, K: Part>(
    names: u64,
    place: &Option<MutexGuard<'a, Held<T, K>>>,
) -> u64
    requires script { IsWellFormed T.script }
    ensures { result ≡ named_by names (option_map (grip_by (λ s. K.lock s) (λ s. K.piece s)) place.now) }
{
    match place {
        Some(held) => names ^ (1 << held.number()),
        None => names,
    }
}

/// Enters the entry of the open pen into the member behind a lock, where that is held, and it is not broken any more.
pub(crate) fn settle_one<'a, T: Run, K: Part>(
    journal: &mut Journal<T, Entry>,
    pen: &mut Pen<T>,
    place: &mut Option<MutexGuard<'a, Held<T, K>>>,
)
    requires pen { journal.old.left ≡ Some pen.old }
    requires ready { MaySettleOne T.script journal.old.entries pen.old (option_map (grip_by (λ s. K.lock s) (λ s. K.piece s)) place.old) }
    ensures journal { journal.new ≡ record journal.old { left = Some pen.new } }
    ensures pen { pen.new ≡ named_by pen.old (option_map (grip_by (λ s. K.lock s) (λ s. K.piece s)) place.old) }
{
    match place {
        Some(held) => held.settle(journal, pen),
        None => {}
    }
}
