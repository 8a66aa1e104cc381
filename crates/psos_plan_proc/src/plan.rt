// What a plan does next.
ghost use Rattle.std.specs.Prelude.{◌≡◌, Ok};
ghost use Rattle.psos_limits.specs.declared.TheConstants.{MOST_CODES};
ghost use Rattle.psos_calls.specs.Language.Request.{InRange};
ghost use Rattle.psos_calls.specs.Levels.{Levels};
ghost use Rattle.psos_calls.specs.Plan.Requests.{plan_of};
ghost use Rattle.psos_calls.specs.Plan.Trace.{followed, next_of, IsTraceOf};
ghost use Rattle.psos_plan_proc.specs.Kinds.{IsOfProcesses};

use crate::processes::{next_call, next_recv, next_send};
use psos_calls::{Next, Private, Request, Trace};
use std::alloc::{AllocError, Global};

/// What the plan of a request does after its calls so far (docs/requests.md, "Plans"): the next call, or the close.
/// The request is one of processes and procedure records, and the trace is a front of a run of its plan. It takes no
/// memory, and never answers want of it.
pub fn next(_alloc: Global, req: &Request, me: &Private, trace: &Trace) -> Result<Next, AllocError>
    requires kind { IsOfProcesses req.now }
    requires in_range { InRange MOST_CODES req.now }
    requires trace { (l : Levels) × IsTraceOf (plan_of me.now req.now) l trace.now }
    ensures { result ≡ Ok (next_of (followed (plan_of me.now req.now) trace.now)) }
{
    let trace = trace.as_slice();
    Ok(match *req {
        Request::Send { rp, rv } => next_send(me, rp, rv, trace),
        Request::Recv { rd } => next_recv(me, rd, trace),
        Request::Call { rp } => next_call(me, rp, trace),
        _ => unreachable!(),
    })
}
