// Parts that plans share: each gives the steps behind it, or stops with what comes next.
ghost use Rattle.std.specs.Prelude.{◌≡◌, MatchResult, IfOk};
ghost use Rattle.psos_calls.specs.Levels.{level_of};
ghost use Rattle.psos_calls.specs.Plan.Parts.{with_fresh};
ghost use Rattle.psos_plan_life.specs.Parts.{Gives, Stops, Tells, Leads, doing, taking, naming};

use psos_calls::close::refuse;
use psos_calls::{Level, LevelAnswer, LevelCall, Next, Refusal, StepSlice};
use psos_caps::{Cap, Uid};

// A call that only has to be made. No answer but a refusal stops the plan.
pub(crate) fn done<'a>(
    level: Level,
    call: LevelCall,
    trace: StepSlice<'a>,
) -> Result<StepSlice<'a>, Next>
    requires { level ≡ level_of call }
    ensures past { Tells (doing call) trace.entry result }
    ensures front { IfOk result (λ rest. Leads call trace.entry rest) }
{
    let Some((step, rest)) = trace.split_first() else {
        return Err(Next::Call(level, call));
    };
    match step.answer {
        LevelAnswer::No(refusal) => Err(refuse(refusal)),
        _ => Ok(rest),
    }
}

// A new identifier.
pub(crate) fn fresh<'a>(trace: StepSlice<'a>) -> Result<(Cap, StepSlice<'a>), Next>
    ensures { MatchResult result (λ p. Gives with_fresh trace.entry p.0 p.1) (λ n. Stops with_fresh trace.entry n) }
{
    let Some((step, rest)) = trace.split_first() else {
        return Err(Next::Call(Level::L0, LevelCall::Fresh));
    };
    match step.answer {
        LevelAnswer::New(new) => Ok((new, rest)),
        LevelAnswer::No(refusal) => Err(refuse(refusal)),
        _ => Err(refuse(Refusal::Range)),
    }
}

// A call that answers with a slot.
pub(crate) fn slot<'a>(
    level: Level,
    call: LevelCall,
    trace: StepSlice<'a>,
) -> Result<(u16, StepSlice<'a>), Next>
    requires { level ≡ level_of call }
    ensures { MatchResult result (λ p. Gives (taking call) trace.entry p.0 p.1) (λ n. Stops (taking call) trace.entry n) }
{
    let Some((step, rest)) = trace.split_first() else {
        return Err(Next::Call(level, call));
    };
    match step.answer {
        LevelAnswer::Slot(slot) => Ok((slot, rest)),
        LevelAnswer::No(refusal) => Err(refuse(refusal)),
        _ => Err(refuse(Refusal::Range)),
    }
}

// A call that answers with the identifier of a representation.
pub(crate) fn rep<'a>(
    level: Level,
    call: LevelCall,
    trace: StepSlice<'a>,
) -> Result<(Uid, StepSlice<'a>), Next>
    requires { level ≡ level_of call }
    ensures { MatchResult result (λ p. Gives (naming call) trace.entry p.0.0 p.1) (λ n. Stops (naming call) trace.entry n) }
{
    let Some((step, rest)) = trace.split_first() else {
        return Err(Next::Call(level, call));
    };
    match step.answer {
        LevelAnswer::Rep(rep) => Ok((rep, rest)),
        LevelAnswer::No(refusal) => Err(refuse(refusal)),
        _ => Err(refuse(Refusal::Range)),
    }
}
