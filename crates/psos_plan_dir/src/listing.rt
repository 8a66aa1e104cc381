// The plan of `list`.
ghost use Rattle.std.specs.Prelude.{◌≡◌, ◌<◌, IfOk, OnErr};
ghost use Rattle.psos_calls.specs.Language.User.{here};
ghost use Rattle.psos_calls.specs.Plan.Trace.{followed, next_of};
ghost use Rattle.psos_calls.specs.Plan.Directories.{plan_list};
ghost use Rattle.psos_plan_dir.specs.Listing.{TellsNames};
ghost use Rattle.psos_plan_dir.specs.Reads.{IsRun};

use crate::{Reading, open_dir};
use psos_calls::close::refuse;
use psos_calls::{Effect, Next, Private, Refusal, Reply, Right, StepSlice};
use psos_words::Word;
use std::alloc::{AllocError, Global};

pub(crate) fn next_list(
    alloc: Global,
    me: &Private,
    rs: u8,
    trace: StepSlice<'_>,
) -> Result<Next, AllocError>
    requires source { rs < 16 }
    requires run { IsRun (plan_list (here me.now) rs) trace }
    ensures answer { IfOk result (λ n. n ≡ next_of (followed (plan_list (here me.now) rs) trace.entry)) }
    ensures memory { OnErr result (TellsNames (followed (plan_list (here me.now) rs) trace.entry)) }
{
    let Word::Cap(cap) = me.here(rs) else {
        return Ok(refuse(Refusal::NotCap));
    };
    let open = match open_dir(cap, Right::List, trace) {
        Reading::Next(next) => return Ok(next),
        Reading::Done(open, _) => open,
    };
    let names = open.names(alloc)?;
    Ok(Next::Close(Reply::Names(names), Effect::Nothing))
}
