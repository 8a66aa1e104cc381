// What a plan does next.
ghost use Rattle.std.specs.Prelude.{◌≡◌, Ok};
ghost use Rattle.psos_limits.specs.declared.TheConstants.{MOST_CODES};
ghost use Rattle.psos_calls.specs.Language.Request.{InRange};
ghost use Rattle.psos_calls.specs.Levels.{Levels};
ghost use Rattle.psos_calls.specs.Plan.Requests.{plan_of};
ghost use Rattle.psos_calls.specs.Plan.Trace.{followed, next_of, IsTraceOf};
ghost use Rattle.psos_plan_seg.specs.Kinds.{IsOfSegments};

use crate::registers::{next_add, next_mint, next_move, next_restrict, next_set};
use crate::segments::{next_length, next_read, next_window, next_write};
use psos_calls::{Next, Private, Request, Trace};
use std::alloc::{AllocError, Global};

/// What the plan of a request does after its calls so far (docs/requests.md, "Plans"): the next call, or the close.
/// The request is one of registers, segments and windows, and the trace is a front of a run of its plan. It takes no
/// memory, and never answers want of it.
pub fn next(_alloc: Global, req: &Request, me: &Private, trace: &Trace) -> Result<Next, AllocError>
    requires kind { IsOfSegments req.now }
    requires in_range { InRange MOST_CODES req.now }
    requires trace { (l : Levels) × IsTraceOf (plan_of me.now req.now) l trace.now }
    ensures { result ≡ Ok (next_of (followed (plan_of me.now req.now) trace.now)) }
{
    let trace = trace.as_slice();
    Ok(match *req {
        Request::Mint { rd } => next_mint(rd, trace),
        Request::Restrict { rd, rs, keep } => next_restrict(me, rd, rs, keep, trace),
        Request::Set { rd, n } => next_set(rd, n, trace),
        Request::Move { rd, rs } => next_move(me, rd, rs, trace),
        Request::Add { rd, ra, rb } => next_add(me, rd, ra, rb, trace),
        Request::Read { rd, rs, n } => next_read(me, rd, rs, n, trace),
        Request::Write { rs, n, rv } => next_write(me, rs, n, rv, trace),
        Request::Window { rd, rs, base, len } => next_window(me, rd, rs, base, len, trace),
        Request::Length { rd, rs } => next_length(me, rd, rs, trace),
        _ => unreachable!(),
    })
}
