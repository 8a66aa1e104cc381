// An event of a user, made.
ghost use Rattle.std.specs.Prelude.{◌≡◌, length, Some, IfOk, OnOk, IfErr, OnErr, option_map};
ghost use Rattle.psos_calls.specs.declared.reply.Reply.{Reply};
ghost use Rattle.psos_calls.specs.declared.effect.Effect.{Effect};
ghost use Rattle.psos_model.specs.Events.{event_of, core_step};
ghost use Rattle.psos_core.specs.Faults.{MayStop, CanStopAt};
ghost use Rattle.psos_core.specs.Plans.{state_in, next_for};
ghost use Rattle.psos_core.specs.Events.{MayStep, HasStepped, HasStopped, told};

use crate::ongoing::Ongoing;
use crate::perform::make;
use crate::phases::phase_of;
use crate::planning::planned;
use crate::upcoming::Upcoming;
use crate::{Event, Levels};
use psos_calls::{Entry, Level, LevelCall, Next, Script, lock_of};
use psos_io::Store;
use psos_journal::{Entries, StopCause};
use psos_sysproc::Want;
use std::alloc::Global;
use std::mem;

/// Makes the event of a user, which is enabled: it takes a lock, calls a level, or closes its request. It may stop for
/// want of memory, but not at a take, and for a fault of the store, which its count shows, in a call of level 7. Then no
/// entry is added, and all is as it was before the event, or as it is after it.
pub(crate) fn step<B: Store>(
    alloc: Global,
    script: &Script,
    levels: &mut Levels<B>,
    ongoing: &mut Ongoing,
    entries: &mut Entries<Entry>,
    user: u8,
) -> Result<Event, StopCause>
    requires may { MayStep script.now (state_in levels.old ongoing.old entries.old) ongoing.old user }
    ensures happened { OnOk result (HasStepped script.now (state_in levels.old ongoing.old entries.old) user (state_in levels.new ongoing.new entries.new) ongoing.new) }
    ensures told { IfOk result (λ e. Some e ≡ option_map (told (length entries.old)) (event_of script.now (state_in levels.old ongoing.old entries.old) user)) }
    ensures left { OnErr result (HasStopped script.now (state_in levels.old ongoing.old entries.old) user (state_in levels.new ongoing.new entries.new) ongoing.new) }
    ensures why { IfErr result (CanStopAt (event_of script.now (state_in levels.old ongoing.old entries.old) user) (next_for script.now (core_step script.now (state_in levels.old ongoing.old entries.old) user) user)) }
    ensures stopped { OnErr result (entries.new ≡ entries.old) }
    ensures cause { MayStop (B.faults levels.old.pages.store) (B.faults levels.new.pages.store) result }
{
    match ongoing.call_of(user) {
        Some((level, call)) => {
            take_or_call(alloc, script, levels, ongoing, entries, user, level, &call)
        }
        None => close(alloc, script, levels, ongoing, entries, user),
    }
}

// Takes the lock of the call that the user's plan asks for, or makes the call under the lock that it holds.
fn take_or_call<B: Store>(
    alloc: Global,
    script: &Script,
    levels: &mut Levels<B>,
    ongoing: &mut Ongoing,
    entries: &Entries<Entry>,
    user: u8,
    level: Level,
    call: &LevelCall,
) -> Result<Event, StopCause>
    requires may { MayStep script.now (state_in levels.old ongoing.old entries.now) ongoing.old user }
    requires asked { next_for script.now (state_in levels.old ongoing.old entries.now) user ≡ Some (Next.Call level call.now) }
    ensures happened { OnOk result (HasStepped script.now (state_in levels.old ongoing.old entries.now) user (state_in levels.new ongoing.new entries.now) ongoing.new) }
    ensures told { IfOk result (λ e. Some e ≡ option_map (told (length entries.now)) (event_of script.now (state_in levels.old ongoing.old entries.now) user)) }
    ensures left { OnErr result (HasStopped script.now (state_in levels.old ongoing.old entries.now) user (state_in levels.new ongoing.new entries.now) ongoing.new) }
    ensures why { IfErr result (CanStopAt (event_of script.now (state_in levels.old ongoing.old entries.now) user) (next_for script.now (core_step script.now (state_in levels.old ongoing.old entries.now) user) user)) }
    ensures cause { MayStop (B.faults levels.old.pages.store) (B.faults levels.new.pages.store) result }
{
    let lock = lock_of(script.users().len() as u8, level, call);
    if !ongoing.held.enabled(user, Want::Call(lock)) {
        ongoing.held.take(user, lock);
        return Ok(Event::Take(lock));
    }
    let u = user as usize;
    make(alloc, levels, &mut ongoing.traces[u], level, call)?;
    let then = planned(
        alloc,
        script,
        &levels.privates.as_slice()[u],
        &ongoing.traces[u],
    );
    let known = then.is_known();
    ongoing.nexts[u] = then;
    if !known {
        return Err(StopCause::Memory);
    }
    Ok(Event::Call(level))
}

// Closes the user's request: its entry comes last, its effect is settled, and its locks are free. What takes memory
// comes first, so where that is wanting nothing has changed.
fn close<B: Store>(
    alloc: Global,
    script: &Script,
    levels: &mut Levels<B>,
    ongoing: &mut Ongoing,
    entries: &mut Entries<Entry>,
    user: u8,
) -> Result<Event, StopCause>
    requires may { MayStep script.now (state_in levels.old ongoing.old entries.old) ongoing.old user }
    requires asked { (reply : Reply) × (effect : Effect) × (next_for script.now (state_in levels.old ongoing.old entries.old) user ≡ Some (Next.Close reply effect)) }
    ensures happened { OnOk result (HasStepped script.now (state_in levels.old ongoing.old entries.old) user (state_in levels.new ongoing.new entries.new) ongoing.new) }
    ensures told { IfOk result (λ e. Some e ≡ option_map (told (length entries.old)) (event_of script.now (state_in levels.old ongoing.old entries.old) user)) }
    ensures left { OnErr result (HasStopped script.now (state_in levels.old ongoing.old entries.old) user (state_in levels.new ongoing.new entries.new) ongoing.new) }
    ensures why { IfErr result (CanStopAt (event_of script.now (state_in levels.old ongoing.old entries.old) user) (next_for script.now (core_step script.now (state_in levels.old ongoing.old entries.old) user) user)) }
    ensures stopped { OnErr result (entries.new ≡ entries.old) }
    ensures cause { MayStop (B.faults levels.old.pages.store) (B.faults levels.new.pages.store) result }
{
    let u = user as usize;
    let Ok(steps) = ongoing.traces[u].calls(alloc) else {
        return Err(StopCause::Memory);
    };
    let Upcoming::Known(Next::Close(reply, effect)) = mem::replace(
        &mut ongoing.nexts[u],
        Upcoming::Close,
    ) else {
        unreachable!()
    };
    let (n, m) = levels.privates.as_slice()[u].place();
    let stamp = entries.len();
    let entry = Entry {
        user,
        n,
        m,
        steps,
        reply,
    };
    if entries.push(entry).is_err() {
        return Err(StopCause::Memory);
    }
    levels.privates.as_mut_slice()[u].settle(&effect, script);
    ongoing.traces[u].clear();
    ongoing.nexts[u] = planned(
        alloc,
        script,
        &levels.privates.as_slice()[u],
        &ongoing.traces[u],
    );
    ongoing
        .phases
        .set(u, phase_of(script, &levels.privates.as_slice()[u]));
    ongoing.held.release(user);
    Ok(Event::Close(stamp))
}
