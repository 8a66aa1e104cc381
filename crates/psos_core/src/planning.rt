// What a user's next request does next.
ghost use Rattle.std.specs.Prelude.{◌≡◌, [], IsTrue};
ghost use Rattle.psos_calls.specs.Language.Script.{IsWellFormed};
ghost use Rattle.psos_core.specs.Plans.{next_after, is_known, CanPlan, Tells};

use crate::plan::next;
use crate::upcoming::Upcoming;
use psos_calls::{Private, Script, Trace};
use std::alloc::Global;

/// What the plan of a user's next request does after these calls, where it has a next request. The calls are a front of
/// a run of that plan. Only of a listing that closes memory may be wanting to tell more than that; so what a request
/// does first is known.
pub(crate) fn planned(alloc: Global, script: &Script, me: &Private, trace: &Trace) -> Upcoming
    requires script { IsWellFormed script.now }
    requires trace { CanPlan script.now me.now trace.now }
    ensures told { Tells result (next_after script.now me.now trace.now) }
    ensures first { trace.now ≡ [] → IsTrue (is_known result) }
{
    let Some(request) = me.next_request(script) else {
        return Upcoming::Nothing;
    };
    match next(alloc, &request, me, trace) {
        Ok(then) => Upcoming::Known(then),
        Err(_error) => Upcoming::Close,
    }
}
