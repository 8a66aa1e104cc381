// Plans that ask levels 12 and 13.
ghost use Rattle.std.specs.Prelude.{◌≡◌, ◌<◌};
ghost use Rattle.psos_calls.specs.Language.User.{here};
ghost use Rattle.psos_calls.specs.Plan.Trace.{followed, next_of};
ghost use Rattle.psos_calls.specs.Plan.Processes.{plan_send, plan_recv, plan_call};

use psos_calls::close::{enter, fine, give, refuse};
use psos_calls::{Level, LevelAnswer, LevelCall, Next, Private, Refusal, StepSlice, Tab};
use psos_limits::{CALL_CHARGE, MOST_CHARGE, MOST_FRAMES};
use psos_words::Word;

pub(crate) fn next_send(me: &Private, rp: u8, rv: u8, trace: StepSlice<'_>) -> Next
    requires target { rp < 16 }
    requires value { rv < 16 }
    ensures { result ≡ next_of (followed (plan_send (here me.now) rp rv) trace.entry) }
{
    let Word::Cap(to) = me.here(rp) else {
        return refuse(Refusal::NotCap);
    };
    let Some((a, _)) = trace.split_first() else {
        let word = me.here(rv);
        return Next::Call(Level::L12, LevelCall::Post { to, word });
    };
    match a.answer {
        LevelAnswer::No(refusal) => refuse(refusal),
        _ => fine(),
    }
}

pub(crate) fn next_recv(me: &Private, rd: u8, trace: StepSlice<'_>) -> Next
    ensures { result ≡ next_of (followed (plan_recv me.now.process rd) trace.entry) }
{
    let Some((a, _)) = trace.split_first() else {
        let uid = me.process();
        return Next::Call(Level::L12, LevelCall::Draw { uid });
    };
    match a.answer {
        LevelAnswer::Got(word) => give(rd, word),
        LevelAnswer::No(refusal) => refuse(refusal),
        _ => refuse(Refusal::Range),
    }
}

pub(crate) fn next_call(me: &Private, rp: u8, trace: StepSlice<'_>) -> Next
    requires { rp < 16 }
    ensures { result ≡ next_of (followed (plan_call me.now (here me.now) rp) trace.entry) }
{
    let Word::Cap(cap) = me.here(rp) else {
        return refuse(Refusal::NotCap);
    };
    if me.open_bodies() >= MOST_FRAMES {
        return refuse(Refusal::Exhausted(Tab::Frames));
    }
    if usize::from(me.charge()) + CALL_CHARGE > MOST_CHARGE {
        return refuse(Refusal::Exhausted(Tab::Requests));
    }
    let Some((a, _)) = trace.split_first() else {
        return Next::Call(Level::L13, LevelCall::Enter { cap });
    };
    match a.answer {
        LevelAnswer::Entered { label, link } => enter(label, link),
        LevelAnswer::No(refusal) => refuse(refusal),
        _ => refuse(Refusal::Range),
    }
}
