// The plan of a request, run call by call.
ghost use Rattle.std.specs.Prelude.{◌≡◌, ◌≤◌, ◌<◌, [], ◌∷◌, ◌++◌, length, slice_get, Some, IfOk, OnOk, IfErr, OnErr};
ghost use Rattle.psos_limits.specs.declared.TheConstants.{MOST_CODES, MOST_CALLS, TRACE_ROOM};
ghost use Rattle.psos_calls.specs.Levels.Calls.{LevelCall as AnyCall};
ghost use Rattle.psos_calls.specs.Language.Request.{InRange};
ghost use Rattle.psos_calls.specs.Language.User.{User};
ghost use Rattle.psos_calls.specs.Levels.{level_of, act, Can};
ghost use Rattle.psos_calls.specs.Plan.{run_plan};
ghost use Rattle.psos_calls.specs.Levels.Lists.{HasLists};
ghost use Rattle.psos_calls.specs.Plan.Requests.{plan_of};
ghost use Rattle.psos_calls.specs.Plan.Trace.{calls_in};
ghost use Rattle.psos_core.specs.System.{levels_of};
ghost use Rattle.psos_core.specs.Faults.{MayStop, CanFault, CanStop};
ghost use Rattle.psos_core.specs.Serving.{CanRun, IsPlanRun};

use crate::Levels;
use crate::plan::next;
use psos_calls::{Effect, Level, LevelCall, LevelFault, Next, Reply, Request, Trace};
use psos_io::Store;
use psos_journal::StopCause;
use std::alloc::Global;

/// How a request closes: with a reply, and with what it does to its user's own part.
#[derive(Drop)]
pub struct Closing {
    pub reply: Reply,
    pub effect: Effect,
}

/// Why a run stops where a level's call could not be made.
pub fn stop_cause(fault: &LevelFault) -> StopCause
    ensures store { result ≡ StopCause.Store → fault.now ≡ LevelFault.Store }
    ensures why { (call : AnyCall) → CanFault call fault.now → CanStop call result }
{
    match *fault {
        LevelFault::Store => StopCause::Store,
        LevelFault::Memory(_) => StopCause::Memory,
    }
}

/// Makes a call, and keeps it in the trace with its answer; a page is copied into the trace from its frame. It stops
/// for want of memory, where the call adds a row, or for a fault of the store, which its count shows, at level 7. Then
/// the levels and the trace are as they were.
pub(crate) fn make<B: Store>(
    alloc: Global,
    levels: &mut Levels<B>,
    trace: &mut Trace,
    level: Level,
    call: &LevelCall,
) -> Result<(), StopCause>
    requires level { level_of call.now ≡ level }
    requires can { Can (levels_of levels.old) call.now }
    requires room { length trace.old < TRACE_ROOM }
    ensures levels { OnOk result (levels_of levels.new ≡ (act (levels_of levels.old) call.now).0) }
    ensures trace { OnOk result (trace.new ≡ trace.old ++ record {
      level = level;
      call = call.now;
      answer = (act (levels_of levels.old) call.now).1;
    } ∷ []) }
    ensures privates { levels.new.privates ≡ levels.old.privates }
    ensures kept { OnErr result (levels_of levels.new ≡ levels_of levels.old) }
    ensures unchanged { OnErr result (trace.new ≡ trace.old) }
    ensures why { IfErr result (CanStop call.now) }
    ensures cause { MayStop (B.faults levels.old.pages.store) (B.faults levels.new.pages.store) result }
{
    if let LevelCall::PageGet { page } = *call {
        let Ok(()) = levels.pages.bring(page) else {
            return Err(StopCause::Store);
        };
        trace.push_page(call, levels.pages.page(page));
        return Ok(());
    }
    match levels.answer(alloc, level, call) {
        Ok(answer) => {
            trace.push(call, answer);
            Ok(())
        }
        Err(fault) => Err(stop_cause(&fault)),
    }
}

/// Runs the plan of a request of user u, whatever the request: each call in turn, until it closes. The trace, which is
/// empty before, has the calls that were made. It stops for want of memory, or for a fault of the store, which its
/// count shows; the levels then stand wherever they stood.
pub(crate) fn perform<B: Store>(
    alloc: Global,
    levels: &mut Levels<B>,
    u: u8,
    request: &Request,
    trace: &mut Trace,
) -> Result<Closing, StopCause>
    ghost me: { User }
    requires user { slice_get levels.old.privates.value.items u ≡ Some me }
    requires in_range { InRange MOST_CODES request.now }
    requires lists { HasLists (levels_of levels.old) }
    requires can { CanRun (plan_of me request.now) (levels_of levels.old) }
    requires few { length (run_plan (plan_of me request.now) (levels_of levels.old)).calls ≤ MOST_CALLS }
    requires empty { trace.old ≡ [] }
    ensures ran { IfOk result (λ c. IsPlanRun (run_plan (plan_of me request.now) (levels_of levels.old))
        (levels_of levels.new) (calls_in trace.new) c.reply c.effect) }
    ensures privates { levels.new.privates ≡ levels.old.privates }
    ensures cause { MayStop (B.faults levels.old.pages.store) (B.faults levels.new.pages.store) result }
{
    'walk: loop {
        let me = &levels.privates.as_slice()[u as usize];
        let Ok(then) = next(alloc, request, me, trace) else {
            return Err(StopCause::Memory);
        };
        match then {
            Next::Call(level, call) => make(alloc, levels, trace, level, &call)?,
            Next::Close(reply, effect) => return Ok(Closing { reply, effect }),
        }
    }
}
