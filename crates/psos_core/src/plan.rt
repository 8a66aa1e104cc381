// What the plan of a request does next, whatever its kind.
ghost use Rattle.std.specs.Prelude.{◌≡◌, IfOk, OnErr};
ghost use Rattle.psos_limits.specs.declared.TheConstants.{MOST_CODES};
ghost use Rattle.psos_calls.specs.Language.Request.{InRange};
ghost use Rattle.psos_calls.specs.Levels.{Levels};
ghost use Rattle.psos_calls.specs.Levels.Lists.{HasLists};
ghost use Rattle.psos_calls.specs.Plan.Requests.{plan_of};
ghost use Rattle.psos_calls.specs.Plan.Trace.{followed, next_of, IsTraceOf};
ghost use Rattle.psos_plan_dir.specs.Listing.{IsListing};

use psos_calls::{Next, Private, Request, Trace};
use std::alloc::{AllocError, Global};

/// What the plan of a request does after its calls so far (docs/requests.md, "Plans"): the next call, or the close. The
/// trace is a front of a run of the plan, from levels in which each live directory has an entry list. `Err` only where
/// memory runs out, and comes only where `list` closes with its names.
pub fn next(
    alloc: Global,
    request: &Request,
    me: &Private,
    trace: &Trace,
) -> Result<Next, AllocError>
    requires in_range { InRange MOST_CODES request.now }
    requires trace { (l : Levels) × IsTraceOf (plan_of me.now request.now) l trace.now × HasLists l }
    ensures answer { IfOk result (λ n. n ≡ next_of (followed (plan_of me.now request.now) trace.now)) }
    ensures memory { OnErr result (IsListing request.now (followed (plan_of me.now request.now) trace.now)) }
{
    match *request {
        Request::Mint { .. }
        | Request::Restrict { .. }
        | Request::Set { .. }
        | Request::Move { .. }
        | Request::Add { .. }
        | Request::Read { .. }
        | Request::Write { .. }
        | Request::Window { .. }
        | Request::Length { .. } => psos_plan_seg::next(alloc, request, me, trace),
        Request::Lookup { .. }
        | Request::Bind { .. }
        | Request::Unbind { .. }
        | Request::List { .. }
        | Request::Path { .. }
        | Request::Find { .. } => psos_plan_dir::next(alloc, request, me, trace),
        Request::Impl { .. }
        | Request::MkSeg { .. }
        | Request::MkDir { .. }
        | Request::MkType { .. }
        | Request::MkObj { .. }
        | Request::MkCode { .. }
        | Request::Delete { .. } => psos_plan_life::next(alloc, request, me, trace),
        Request::Send { .. } | Request::Recv { .. } | Request::Call { .. } => {
            psos_plan_proc::next(alloc, request, me, trace)
        }
    }
}
