// One request of a user.
ghost use Rattle.std.specs.Prelude.{◌≡◌, ◌+◌, true, Some, length, IfOk, OnOk, IfErr, IsTrue};
ghost use Rattle.psos_calls.specs.Language.Script.{IsWellFormed};
ghost use Rattle.psos_calls.specs.Language.User.{next_request};
ghost use Rattle.psos_calls.specs.Locks.{lock_of};
ghost use Rattle.psos_calls.specs.Locks.Held.{is_held};
ghost use Rattle.psos_calls.specs.Plan.{Close};
ghost use Rattle.psos_calls.specs.Plan.Requests.{plan_of};
ghost use Rattle.psos_calls.specs.Plan.Trace.{followed, next_of, IsTraceOf};
ghost use Rattle.psos_limits.specs.declared.TheConstants.{MOST_CODES};
ghost use Rattle.psos_calls.specs.Language.Request.{InRange};
ghost use Rattle.psos_calls.specs.Levels.{Levels};
ghost use Rattle.psos_calls.specs.Levels.Lists.{HasLists};
ghost use Rattle.psos_histories.specs.Grips.{locks_of};
ghost use Rattle.psos_locks.specs.Grips.{grips_of};
ghost use Rattle.psos_locks.specs.Places.{HasFailed};
ghost use Rattle.psos_locks.specs.Runs.{AsksFor, HasStepped};
ghost use Rattle.psos_locks.specs.Users.{has_more, HasClosed, HasGone, HasStopped, IsAtWork};

use crate::close::close;
use crate::hands::Hands;
use crate::locks::{Locks, look};
use crate::own::Own;
use crate::run::Run;
use psos_calls::{Level, LevelCall, Next, Request, Script};
use psos_core::{Closing, next, stop_cause};
use psos_io::{Gate, Store};
use psos_journal::StopCause;
use psos_sysproc::rank;
use std::alloc::{AllocError, Global};
use std::sync::Wait;

// The lock of the call that the plan asks for is held: it was already, or it is taken now. False where it is broken.
fn hold<'a, T: Run, B: Store, R: Wait>(
    rt: &R,
    locks: &'a Locks<T, B>,
    own: &mut Own<T>,
    hands: &mut Hands<'a, T, B>,
    users: u8,
    level: Level,
    call: &LevelCall,
    request: &Request,
) -> bool
    requires script { IsWellFormed T.script }
    requires users { users ≡ length T.script.users }
    requires work { IsAtWork T.script own.old request.now (grips_of hands.old) }
    requires asked { AsksFor (followed (plan_of own.old.own request.now) own.old.trace) level call.now }
    ensures own { own.new ≡ own.old }
    ensures work { result ≡ true → IsAtWork T.script own.old request.now (grips_of hands.new) }
    ensures held { result ≡ true → is_held (locks_of (grips_of hands.new)) (lock_of users call.now) ≡ true }
{
    let _request = request;
    if hands.holds(users, level, call) {
        return true;
    }
    if !locks.take(rt, hands, users, level, call) {
        return false;
    }
    look(rt, &locks.journal, &mut own.member, hands);
    true
}

// Makes the call that the plan asks for, under its lock, which is held.
fn make<'a, T: Run, B: Store>(
    alloc: Global,
    own: &mut Own<T>,
    hands: &mut Hands<'a, T, B>,
    users: u8,
    level: Level,
    call: &LevelCall,
    request: &Request,
) -> Result<(), StopCause>
    requires script { IsWellFormed T.script }
    requires users { users ≡ length T.script.users }
    requires work { IsAtWork T.script own.old request.now (grips_of hands.old) }
    requires asks { next_request T.script own.old.own ≡ Some request.now }
    requires asked { AsksFor (followed (plan_of own.old.own request.now) own.old.trace) level call.now }
    requires held { is_held (locks_of (grips_of hands.old)) (lock_of users call.now) ≡ true }
    ensures own { HasGone own.old own.new }
    ensures work { OnOk result (IsAtWork T.script own.new request.now (grips_of hands.new)) }
    ensures longer { OnOk result (length own.new.trace ≡ length own.old.trace + 1) }
    ensures failed { IfErr result (λ cause. cause ≡ StopCause.Store → HasFailed T.faults_before B.faults hands.new.pages) }
{
    let _request = request;
    match hands.make(alloc, users, level, call, &mut own.trace) {
        Ok(()) => Ok(()),
        Err(fault) => Err(stop_cause(&fault)),
    }
}

// One step of a request: a call under its lock, which is taken first where it is not held; or the plan closes.
fn step<'a, T: Run, B: Store, R: Wait, G: Gate>(
    rt: &R,
    alloc: Global,
    locks: &'a Locks<T, B>,
    own: &mut Own<T>,
    hands: &mut Hands<'a, T, B>,
    users: u8,
    request: &Request,
    gate: &G,
) -> Result<Option<Closing>, StopCause>
    requires script { IsWellFormed T.script }
    requires users { users ≡ length T.script.users }
    requires asks { next_request T.script own.old.own ≡ Some request.now }
    requires work { IsAtWork T.script own.old request.now (grips_of hands.old) }
    ensures own { HasGone own.old own.new }
    ensures work { OnOk result (IsAtWork T.script own.new request.now (grips_of hands.new)) }
    ensures went { IfOk result (HasStepped (plan_of own.old.own request.now) own.old.trace own.new.trace) }
    ensures failed { IfErr result (λ cause. cause ≡ StopCause.Store → HasFailed T.faults_before B.faults hands.new.pages) }
{
    let Ok(then) = asked(alloc, request, own) else {
        return Err(StopCause::Memory);
    };
    let (level, call) = match then {
        Next::Call(level, call) => (level, call),
        Next::Close(reply, effect) => return Ok(Some(Closing { reply, effect })),
    };
    if !hold(rt, locks, own, hands, users, level, &call, request) {
        return Err(StopCause::Memory);
    }
    gate.at(own.member.number(), rank(level));
    make(alloc, own, hands, users, level, &call, request)?;
    Ok(None)
}

// What the plan of a request does after the calls so far.
fn asked<T: Run>(alloc: Global, request: &Request, own: &Own<T>) -> Result<Next, AllocError>
    requires in_range { InRange MOST_CODES request.now }
    requires trace { (l : Levels) × IsTraceOf (plan_of own.now.own request.now) l own.now.trace × HasLists l }
    ensures { IfOk result (λ n. n ≡ next_of (followed (plan_of own.now.own request.now) own.now.trace)) }
{
    next(alloc, request, &own.private, &own.trace)
}

// Makes the calls of a request's plan, each under its lock, until the plan closes.
fn walk<'a, T: Run, B: Store, R: Wait, G: Gate>(
    rt: &R,
    alloc: Global,
    locks: &'a Locks<T, B>,
    own: &mut Own<T>,
    hands: &mut Hands<'a, T, B>,
    users: u8,
    request: &Request,
    gate: &G,
) -> Result<Closing, StopCause>
    requires script { IsWellFormed T.script }
    requires users { users ≡ length T.script.users }
    requires asks { next_request T.script own.old.own ≡ Some request.now }
    requires work { IsAtWork T.script own.old request.now (grips_of hands.old) }
    ensures own { HasGone own.old own.new }
    ensures work { OnOk result (IsAtWork T.script own.new request.now (grips_of hands.new)) }
    ensures over { IfOk result (λ c. followed (plan_of own.old.own request.now) own.new.trace ≡ Close c.reply c.effect) }
    ensures failed { IfErr result (λ cause. cause ≡ StopCause.Store → HasFailed T.faults_before B.faults hands.new.pages) }
{
    'walk: loop {
        if let Some(closing) = step(rt, alloc, locks, own, hands, users, request, gate)? {
            return Ok(closing);
        }
    }
}

/// One request of a user, its next one: its plan's calls, each under its lock, which is taken when it is first needed
/// and kept, and the close, under the lock of the journal. Its entry's stamp; the reply stands in the entry. `Err` with
/// the first cause for which the run was stopped: that of this call, where it met a fault of the store or memory was
/// wanting, or a broken lock, which counts as that; or that of another one, which it found. No entry was added then, and
/// the levels that it called stay broken. It may wait for other users (docs/levels.md, "Locks" and "Journal").
pub fn serve<T: Run, B: Store, R: Wait, G: Gate>(
    rt: &R,
    alloc: Global,
    locks: &Locks<T, B>,
    script: &Script,
    own: &mut Own<T>,
    request: &Request,
    gate: &G,
) -> Result<u32, StopCause>
    requires script { script.now ≡ T.script }
    requires well_formed { IsWellFormed T.script }
    requires asks { next_request T.script own.old.own ≡ Some request.now }
    requires left { IsTrue (has_more T.script own.old) }
    ensures closed { IfOk result (λ stamp. HasClosed own.old stamp own.new) }
    ensures stopped { IfErr result (λ cause. HasStopped own.old cause own.new) }
{
    let users = script.users().len() as u8;
    own.trace.clear();
    let mut hands = Hands::empty();
    let ran = walk(rt, alloc, locks, own, &mut hands, users, request, gate);
    let mut guard = locks.journal.lock(rt);
    let book = &mut *guard;
    let cause = match ran {
        Ok(closing) => {
            if let Some(stamp) = close(book, alloc, script, own, &mut hands, request, closing) {
                return Ok(stamp);
            }
            StopCause::Memory
        }
        Err(cause) => cause,
    };
    Err(book.stop(&mut own.member, &mut hands, cause))
}
