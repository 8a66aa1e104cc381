// What a plan does next.
ghost use Rattle.std.specs.Prelude.{◌≡◌, IfOk, OnErr};
ghost use Rattle.psos_limits.specs.declared.TheConstants.{MOST_CODES};
ghost use Rattle.psos_calls.specs.Language.Request.{InRange};
ghost use Rattle.psos_calls.specs.Levels.{Levels};
ghost use Rattle.psos_calls.specs.Levels.Lists.{HasLists};
ghost use Rattle.psos_calls.specs.Plan.Requests.{plan_of};
ghost use Rattle.psos_calls.specs.Plan.Trace.{followed, next_of, IsTraceOf};
ghost use Rattle.psos_plan_dir.specs.Kinds.{IsOfDirectories};
ghost use Rattle.psos_plan_dir.specs.Listing.{IsListing};

use crate::directories::{next_bind, next_lookup, next_unbind};
use crate::listing::next_list;
use crate::spaces::{next_find, next_path};
use psos_calls::{Next, Private, Request, Trace};
use std::alloc::{AllocError, Global};

/// What the plan of a request does after its calls so far (docs/requests.md, "Plans"): the next call, or the close. The
/// request is one of directories and name spaces, and the trace is a front of a run of its plan from levels in which
/// each live directory has an entry list. `Err` only where memory runs out, and comes only where `list` closes with its
/// names.
pub fn next(alloc: Global, req: &Request, me: &Private, trace: &Trace) -> Result<Next, AllocError>
    requires kind { IsOfDirectories req.now }
    requires in_range { InRange MOST_CODES req.now }
    requires trace { (l : Levels) × IsTraceOf (plan_of me.now req.now) l trace.now × HasLists l }
    ensures answer { IfOk result (λ n. n ≡ next_of (followed (plan_of me.now req.now) trace.now)) }
    ensures memory { OnErr result (IsListing req.now (followed (plan_of me.now req.now) trace.now)) }
{
    let steps = trace.as_slice();
    match *req {
        Request::Lookup { rd, rs, name } => Ok(next_lookup(me, rd, rs, &name, steps)),
        Request::Bind { rs, name, rv } => Ok(next_bind(me, rs, &name, rv, steps)),
        Request::Unbind { rs, name } => Ok(next_unbind(me, rs, &name, steps)),
        Request::List { rs } => next_list(alloc, me, rs, steps),
        Request::Path { rs } => Ok(next_path(me, rs, steps)),
        Request::Find { rd, name } => Ok(next_find(me, rd, &name, trace)),
        _ => unreachable!(),
    }
}
