// Plans that look into one directory, or change it.
ghost use Rattle.std.specs.Prelude.{◌≡◌, ◌<◌, not};
ghost use Rattle.psos_text.specs.Name.{IsName};
ghost use Rattle.psos_calls.specs.Language.User.{here};
ghost use Rattle.psos_calls.specs.Plan.Trace.{followed, next_of};
ghost use Rattle.psos_words.specs.Directory.{gone_words};
ghost use Rattle.psos_calls.specs.declared.refusal.Refusal.TheVariants.{Distinguished};
ghost use Rattle.psos_calls.specs.Plan.{refuse as refused};
ghost use Rattle.psos_calls.specs.Plan.Parts.{fine, put_slot};
ghost use Rattle.psos_calls.specs.Language.Tests.{if_holds};
ghost use Rattle.psos_calls.specs.Plan.Directories.{plan_bind, plan_lookup, plan_unbind};
ghost use Rattle.psos_plan_dir.specs.Reads.{IsRun};

use crate::close::done;
use crate::{Open, Reading, open_dir, read_dir};
use psos_calls::close::{give, refuse};
use psos_calls::{Level, LevelAnswer, LevelCall, Next, Private, Refusal, Right, StepSlice};
use psos_dirrep::{Found, entry_words, gone_words};
use psos_guards::admits;
use psos_text::Name;
use psos_words::Word;

pub(crate) fn next_lookup(me: &Private, rd: u8, rs: u8, name: &Name, trace: StepSlice<'_>) -> Next
    requires source { rs < 16 }
    requires named { IsName name.now }
    requires run { IsRun (plan_lookup (here me.now) rd rs name.now) trace }
    ensures { result ≡ next_of (followed (plan_lookup (here me.now) rd rs name.now) trace.entry) }
{
    let Word::Cap(cap) = me.here(rs) else {
        return refuse(Refusal::NotCap);
    };
    let open = match open_dir(cap, Right::Lookup, trace) {
        Reading::Next(next) => return next,
        Reading::Done(open, _) => open,
    };
    match open.find(name) {
        Some(found) => give(rd, Word::Cap(found.cap)),
        None => refuse(Refusal::UnknownName),
    }
}

pub(crate) fn next_unbind(me: &Private, rs: u8, name: &Name, trace: StepSlice<'_>) -> Next
    requires source { rs < 16 }
    requires named { IsName name.now }
    requires run { IsRun (plan_unbind (here me.now) rs name.now) trace }
    ensures { result ≡ next_of (followed (plan_unbind (here me.now) rs name.now) trace.entry) }
{
    let Word::Cap(cap) = me.here(rs) else {
        return refuse(Refusal::NotCap);
    };
    let (open, rest) = match open_dir(cap, Right::Unbind, trace) {
        Reading::Next(next) => return next,
        Reading::Done(open, rest) => (open, rest),
    };
    // Once the words are written the name is not looked for again.
    if let Some((written, _)) = rest.split_first() {
        return done(&written.answer);
    }
    match open.find(name) {
        Some(found) => remove(&open, found),
        None => refuse(Refusal::UnknownName),
    }
}

// An entry goes, unless it is a distinguished one.
fn remove(dir: &Open<'_>, found: Found) -> Next
    ensures { result ≡ next_of (if_holds (not found.kept) (refused Distinguished) (put_slot dir.now found.slot gone_words fine)) }
{
    if found.kept {
        return refuse(Refusal::Distinguished);
    }
    dir.write(found.slot, gone_words())
}

pub(crate) fn next_bind(me: &Private, rs: u8, name: &Name, rv: u8, trace: StepSlice<'_>) -> Next
    requires source { rs < 16 }
    requires value { rv < 16 }
    requires named { IsName name.now }
    requires run { IsRun (plan_bind (here me.now) rs name.now rv) trace }
    ensures { result ≡ next_of (followed (plan_bind (here me.now) rs name.now rv) trace.entry) }
{
    let Word::Cap(cap) = me.here(rs) else {
        return refuse(Refusal::NotCap);
    };
    let Word::Cap(value) = me.here(rv) else {
        return refuse(Refusal::NotCap);
    };
    let Some((a, rest)) = trace.split_first() else {
        let right = Right::Bind;
        return Next::Call(Level::L10, LevelCall::DirAt { cap, right });
    };
    let guard = match a.answer {
        LevelAnswer::Guard(guard) => guard,
        LevelAnswer::No(refusal) => return refuse(refusal),
        _ => return refuse(Refusal::Range),
    };
    if let Err(bit) = admits(guard, Word::Cap(value)) {
        return refuse(Refusal::Guarded(bit));
    }
    let (open, rest) = match read_dir(cap.uid(), rest) {
        Reading::Next(next) => return next,
        Reading::Done(open, rest) => (open, rest),
    };
    // Once the words are written no place is looked for again.
    if let Some((written, _)) = rest.split_first() {
        return done(&written.answer);
    }
    match open.room_for(name) {
        Ok(k) => open.write(k, entry_words(name, value, false)),
        Err(refusal) => refuse(refusal),
    }
}
