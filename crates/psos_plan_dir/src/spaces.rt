// Plans of name spaces.
ghost use Rattle.std.specs.Prelude.{◌≡◌, ◌<◌, [], drop, option_map, IfSome};
ghost use Rattle.psos_text.specs.Name.{IsName};
ghost use Rattle.psos_words.specs.Directory.{find};
ghost use Rattle.psos_dirrep.specs.Entries.{as_found};
ghost use Rattle.psos_calls.specs.Language.User.{here};
ghost use Rattle.psos_calls.specs.Plan.Trace.{followed, next_of};
ghost use Rattle.psos_calls.specs.Plan.Directories.{plan_find, plan_path};
ghost use Rattle.psos_plan_dir.specs.Reads.{IsRun};

use crate::{Open, Reading, read_dir};
use psos_calls::close::{give, refuse};
use psos_calls::{
    Effect, Level, LevelAnswer, LevelCall, Next, Path, Private, Refusal, Reply, Right, StepSlice,
    Tab, Trace,
};
use psos_dirrep::Found;
use psos_text::Name;
use psos_words::Word;

pub(crate) fn next_path(me: &Private, rs: u8, trace: StepSlice<'_>) -> Next
    requires { rs < 16 }
    ensures { result ≡ next_of (followed (plan_path (here me.now) me.now.path rs) trace.entry) }
{
    let Word::Cap(cap) = me.here(rs) else {
        return refuse(Refusal::NotCap);
    };
    if me.path().len() >= 4 {
        return refuse(Refusal::Exhausted(Tab::Path));
    }
    let Some((a, _)) = trace.split_first() else {
        let call = LevelCall::DirAt {
            cap,
            right: Right::Lookup,
        };
        return Next::Call(Level::L10, call);
    };
    match a.answer {
        LevelAnswer::Guard(_) => Next::Close(Reply::Fine, Effect::Push(cap)),
        LevelAnswer::No(refusal) => refuse(refusal),
        _ => refuse(Refusal::Range),
    }
}

pub(crate) fn next_find(me: &Private, rd: u8, name: &Name, trace: &Trace) -> Next
    requires named { IsName name.now }
    requires run { IsRun (plan_find me.now.path rd name.now) trace.now }
    ensures { result ≡ next_of (followed (plan_find me.now.path rd name.now) trace.now) }
{
    let (passed, rest) = trace.since_dir();
    find_from(me.path(), passed, rd, name, rest)
}

// What the plan does from directory i of the name space on.
fn find_from(path: &Path, i: usize, rd: u8, name: &Name, trace: StepSlice<'_>) -> Next
    requires named { IsName name.now }
    requires run { IsRun (plan_find (drop i path.now) rd name.now) trace }
    ensures { result ≡ next_of (followed (plan_find (drop i path.now) rd name.now) trace.entry) }
{
    if i >= path.len() {
        return refuse(Refusal::UnknownName);
    }
    let cap = path.get(i);
    let Some((a, rest)) = trace.split_first() else {
        let right = Right::Lookup;
        return Next::Call(Level::L10, LevelCall::DirAt { cap, right });
    };
    let LevelAnswer::Guard(_) = a.answer else {
        return find_from(path, i + 1, rd, name, rest);
    };
    let (open, rest) = match read_dir(cap.uid(), rest) {
        Reading::Next(next) => return next,
        Reading::Done(open, rest) => (open, rest),
    };
    match found_now(&open, name, &rest) {
        Some(found) => give(rd, Word::Cap(found.cap)),
        None => find_from(path, i + 1, rd, name, rest),
    }
}

// The entry of the name. Where a call was made since the directory was read, it was not there, and is not looked for
// again.
fn found_now(dir: &Open<'_>, name: &Name, rest: &StepSlice<'_>) -> Option<Found>
    requires { IsName name.now }
    ensures looked { rest.now ≡ [] → result ≡ option_map as_found (find dir.now.slots name.now) }
    ensures passed { IfSome result (λ found. rest.now ≡ []) }
{
    if !rest.is_empty() {
        return None;
    }
    dir.find(name)
}
