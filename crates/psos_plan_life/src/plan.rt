// What a plan does next.
ghost use Rattle.std.specs.Prelude.{◌≡◌, Ok};
ghost use Rattle.psos_limits.specs.declared.TheConstants.{MOST_CODES};
ghost use Rattle.psos_calls.specs.Language.Request.{InRange};
ghost use Rattle.psos_calls.specs.Levels.{Levels};
ghost use Rattle.psos_calls.specs.Levels.Lists.{HasLists};
ghost use Rattle.psos_calls.specs.Plan.Requests.{plan_of};
ghost use Rattle.psos_calls.specs.Plan.Trace.{followed, next_of, IsTraceOf};
ghost use Rattle.psos_plan_life.specs.Kinds.{IsOfLife};

use crate::delete::next_delete;
use crate::impls::next_impl;
use crate::makes::{next_mkcode, next_mkdir, next_mkobj, next_mkseg, next_mktype};
use psos_calls::{Next, Private, Request, Trace};
use std::alloc::{AllocError, Global};

/// What the plan of a request does after its calls so far (docs/requests.md, "Plans"): the next call, or the close.
/// The request is one of user objects, and the trace is a front of a run of its plan from levels in which each live
/// directory has an entry list. It takes no memory, and never answers want of it.
pub fn next(_alloc: Global, req: &Request, me: &Private, trace: &Trace) -> Result<Next, AllocError>
    requires kind { IsOfLife req.now }
    requires in_range { InRange MOST_CODES req.now }
    requires trace { (l : Levels) × IsTraceOf (plan_of me.now req.now) l trace.now × HasLists l }
    ensures { result ≡ Ok (next_of (followed (plan_of me.now req.now) trace.now)) }
{
    let trace = trace.as_slice();
    Ok(match *req {
        Request::Impl { rd, rt, ro } => next_impl(me, rd, rt, ro, trace),
        Request::MkSeg {
            rd,
            rs,
            name,
            len,
            guard,
        } => next_mkseg(me, rd, rs, &name, len, guard, trace),
        Request::MkDir {
            rd,
            rs,
            name,
            guard,
        } => next_mkdir(me, rd, rs, &name, guard, trace),
        Request::MkType { rd, rs, name } => next_mktype(me, rd, rs, &name, trace),
        Request::MkObj {
            rd,
            rt,
            rs,
            name,
            len,
        } => next_mkobj(me, rd, rt, rs, &name, len, trace),
        Request::MkCode {
            rd,
            rs,
            name,
            label,
            rl,
        } => next_mkcode(me, rd, rs, &name, label, rl, trace),
        Request::Delete { rs, name } => next_delete(me, rs, &name, trace),
        _ => unreachable!(),
    })
}
