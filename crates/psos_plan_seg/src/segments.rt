// Plans that ask levels 8 and 7.
ghost use Rattle.std.specs.Prelude.{◌≡◌, ◌<◌};
ghost use Rattle.psos_calls.specs.Language.User.{here};
ghost use Rattle.psos_calls.specs.Levels.{Levels};
ghost use Rattle.psos_calls.specs.Plan.Trace.{followed, next_of, IsTraceOf};
ghost use Rattle.psos_calls.specs.Plan.Segments.{plan_read, plan_write, plan_window, plan_length};

use psos_calls::close::{fine, give, refuse};
use psos_calls::{Level, LevelAnswer, LevelCall, Next, Private, Refusal, Right, StepSlice};
use psos_words::Word;

pub(crate) fn next_read(me: &Private, rd: u8, rs: u8, n: u64, trace: StepSlice<'_>) -> Next
    requires { rs < 16 }
    ensures { result ≡ next_of (followed (plan_read (here me.now) rd rs n) trace.entry) }
{
    let Word::Cap(cap) = me.here(rs) else {
        return refuse(Refusal::NotCap);
    };
    let Some((a, trace)) = trace.split_first() else {
        let call = LevelCall::Locate {
            cap,
            off: n,
            need: Right::Read,
            word: None,
        };
        return Next::Call(Level::L8, call);
    };
    let (page, off) = match a.answer {
        LevelAnswer::At { page, off } => (page, off),
        LevelAnswer::No(refusal) => return refuse(refusal),
        _ => return refuse(Refusal::Range),
    };
    let Some((b, _)) = trace.split_first() else {
        return Next::Call(Level::L7, LevelCall::WordGet { page, off });
    };
    match b.answer {
        LevelAnswer::Got(word) => give(rd, word),
        LevelAnswer::No(refusal) => refuse(refusal),
        _ => refuse(Refusal::Range),
    }
}

pub(crate) fn next_write(me: &Private, rs: u8, n: u64, rv: u8, trace: StepSlice<'_>) -> Next
    requires source { rs < 16 }
    requires value { rv < 16 }
    ensures { result ≡ next_of (followed (plan_write (here me.now) rs n rv) trace.entry) }
{
    let Word::Cap(cap) = me.here(rs) else {
        return refuse(Refusal::NotCap);
    };
    let word = me.here(rv);
    let Some((a, trace)) = trace.split_first() else {
        let call = LevelCall::Locate {
            cap,
            off: n,
            need: Right::Write,
            word: Some(word),
        };
        return Next::Call(Level::L8, call);
    };
    let (page, off) = match a.answer {
        LevelAnswer::At { page, off } => (page, off),
        LevelAnswer::No(refusal) => return refuse(refusal),
        _ => return refuse(Refusal::Range),
    };
    let Some((b, _)) = trace.split_first() else {
        return Next::Call(Level::L7, LevelCall::WordPut { page, off, word });
    };
    match b.answer {
        LevelAnswer::No(refusal) => refuse(refusal),
        _ => fine(),
    }
}

pub(crate) fn next_length(me: &Private, rd: u8, rs: u8, trace: StepSlice<'_>) -> Next
    requires { rs < 16 }
    ensures { result ≡ next_of (followed (plan_length (here me.now) rd rs) trace.entry) }
{
    let Word::Cap(cap) = me.here(rs) else {
        return refuse(Refusal::NotCap);
    };
    let Some((a, _)) = trace.split_first() else {
        return Next::Call(Level::L8, LevelCall::Length { cap });
    };
    match a.answer {
        LevelAnswer::Len(n) => give(rd, Word::Data(n)),
        LevelAnswer::No(refusal) => refuse(refusal),
        _ => refuse(Refusal::Range),
    }
}

pub(crate) fn next_window(
    me: &Private,
    rd: u8,
    rs: u8,
    base: u64,
    len: u64,
    trace: StepSlice<'_>,
) -> Next
    requires source { rs < 16 }
    requires trace { (l : Levels) × IsTraceOf (plan_window (here me.now) rd rs base len) l trace }
    ensures { result ≡ next_of (followed (plan_window (here me.now) rd rs base len) trace.entry) }
{
    let Word::Cap(cap) = me.here(rs) else {
        return refuse(Refusal::NotCap);
    };
    let Some((a, trace)) = trace.split_first() else {
        return Next::Call(Level::L8, LevelCall::WinRoom { cap, base, len });
    };
    if let LevelAnswer::No(refusal) = a.answer {
        return refuse(refusal);
    }
    let Some((b, trace)) = trace.split_first() else {
        return Next::Call(Level::L0, LevelCall::Fresh);
    };
    let new = match b.answer {
        LevelAnswer::New(new) => new,
        LevelAnswer::No(refusal) => return refuse(refusal),
        _ => return refuse(Refusal::Range),
    };
    let Some((c, _)) = trace.split_first() else {
        let call = LevelCall::WinMake {
            uid: new.uid(),
            cap,
            base,
            len,
        };
        return Next::Call(Level::L8, call);
    };
    match c.answer {
        LevelAnswer::No(refusal) => refuse(refusal),
        _ => give(rd, Word::Cap(new.restrict(cap.rights()))),
    }
}
