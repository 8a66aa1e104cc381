// The plan of `impl`.
ghost use Rattle.std.specs.Prelude.{◌≡◌, ◌<◌};
ghost use Rattle.psos_calls.specs.Language.User.{here};
ghost use Rattle.psos_calls.specs.Plan.Trace.{followed, next_of};
ghost use Rattle.psos_calls.specs.Plan.Objects.{plan_impl};

use psos_calls::close::{give, refuse};
use psos_calls::{Level, LevelAnswer, LevelCall, Next, Private, Refusal, StepSlice};
use psos_words::Word;

pub(crate) fn next_impl(me: &Private, rd: u8, rt: u8, ro: u8, trace: StepSlice<'_>) -> Next
    requires of { rt < 16 }
    requires on { ro < 16 }
    ensures { result ≡ next_of (followed (plan_impl (here me.now) rd rt ro) trace.entry) }
{
    let Word::Cap(of) = me.here(rt) else {
        return refuse(Refusal::NotCap);
    };
    let Word::Cap(on) = me.here(ro) else {
        return refuse(Refusal::NotCap);
    };
    let Some((step, _)) = trace.split_first() else {
        return Next::Call(Level::L9, LevelCall::Impl { of, on });
    };
    match step.answer {
        LevelAnswer::Got(word) => give(rd, word),
        LevelAnswer::No(refusal) => refuse(refusal),
        _ => refuse(Refusal::Range),
    }
}
