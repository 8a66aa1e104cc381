// Plans that ask no level, and `mint`.
ghost use Rattle.std.specs.Prelude.{◌≡◌, ◌<◌};
ghost use Rattle.psos_calls.specs.Language.User.{here};
ghost use Rattle.psos_calls.specs.Plan.Trace.{followed, next_of};
ghost use Rattle.psos_calls.specs.Plan.Segments.{plan_mint, plan_restrict, plan_set, plan_move, plan_add};

use psos_calls::close::{give, refuse};
use psos_calls::{Level, LevelAnswer, LevelCall, Next, Private, Refusal, StepSlice};
use psos_caps::Rights;
use psos_words::Word;

pub(crate) fn next_mint(rd: u8, trace: StepSlice<'_>) -> Next
    ensures { result ≡ next_of (followed (plan_mint rd) trace.entry) }
{
    let Some((a, _)) = trace.split_first() else {
        return Next::Call(Level::L0, LevelCall::Fresh);
    };
    match a.answer {
        LevelAnswer::New(new) => give(rd, Word::Cap(new)),
        LevelAnswer::No(refusal) => refuse(refusal),
        _ => refuse(Refusal::Range),
    }
}

pub(crate) fn next_restrict(
    me: &Private,
    rd: u8,
    rs: u8,
    keep: Rights,
    trace: StepSlice<'_>,
) -> Next
    requires { rs < 16 }
    ensures { result ≡ next_of (followed (plan_restrict (here me.now) rd rs keep.0) trace.entry) }
{
    match me.here(rs) {
        Word::Data(_) => refuse(Refusal::NotCap),
        Word::Cap(cap) => give(rd, Word::Cap(cap.restrict(keep))),
    }
}

pub(crate) fn next_set(rd: u8, n: u64, trace: StepSlice<'_>) -> Next
    ensures { result ≡ next_of (followed (plan_set rd n) trace.entry) }
{
    give(rd, Word::Data(n))
}

pub(crate) fn next_move(me: &Private, rd: u8, rs: u8, trace: StepSlice<'_>) -> Next
    requires { rs < 16 }
    ensures { result ≡ next_of (followed (plan_move (here me.now) rd rs) trace.entry) }
{
    give(rd, me.here(rs))
}

pub(crate) fn next_add(me: &Private, rd: u8, ra: u8, rb: u8, trace: StepSlice<'_>) -> Next
    requires first { ra < 16 }
    requires second { rb < 16 }
    ensures { result ≡ next_of (followed (plan_add (here me.now) rd ra rb) trace.entry) }
{
    let Word::Data(a) = me.here(ra) else {
        return refuse(Refusal::NotData);
    };
    let Word::Data(b) = me.here(rb) else {
        return refuse(Refusal::NotData);
    };
    match a.checked_add(b) {
        Some(sum) => give(rd, Word::Data(sum)),
        None => refuse(Refusal::Overflow),
    }
}
