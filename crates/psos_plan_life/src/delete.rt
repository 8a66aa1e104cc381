// The plan of `delete`.
ghost use Rattle.std.specs.Prelude.{◌≡◌, ◌<◌, MatchResult, Some, []};
ghost use Rattle.psos_text.specs.Name.{IsName};
ghost use Rattle.psos_words.specs.Directory.{Found as Entered, find, gone_words as words_of_gone};
ghost use Rattle.psos_calls.specs.Language.User.{here};
ghost use Rattle.psos_calls.specs.Plan.Parts.{put_slot, fine as it_was_done};
ghost use Rattle.psos_calls.specs.Plan.Objects.{plan_delete};
ghost use Rattle.psos_calls.specs.Plan.Trace.{followed, next_of};
ghost use Rattle.psos_plan_dir.specs.Reads.{IsRun, Reads};
ghost use Rattle.psos_plan_life.specs.Parts.{Stops};
ghost use Rattle.psos_plan_life.specs.Deletion.{held_dir, picking, forgotten, deleting, IsHeldFront, IsDeleting, IsEntryOf, IsPicked};

use crate::parts::done;
use crate::removal::kind_gone;
use psos_calls::close::{fine, refuse};
use psos_calls::{Kind, Level, LevelAnswer, LevelCall, Next, Private, Refusal, Right, StepSlice};
use psos_caps::{Cap, Uid};
use psos_dirrep::gone_words;
use psos_plan_dir::{Open, Reading, open_dir};
use psos_text::Name;
use psos_words::Word;

pub(crate) fn next_delete(me: &Private, rs: u8, name: &Name, trace: StepSlice<'_>) -> Next
    requires source { rs < 16 }
    requires named { IsName name.now }
    requires run { IsRun (plan_delete (here me.now) rs name.now) trace }
    ensures { result ≡ next_of (followed (plan_delete (here me.now) rs name.now) trace.entry) }
{
    let Word::Cap(dir) = me.here(rs) else {
        return refuse(Refusal::NotCap);
    };
    match open_held(dir, name, trace) {
        Reading::Next(next) => next,
        Reading::Done(dir, rest) => delete_in(&dir, name, rest),
    }
}

// Levels 13 and 11 are held, and the directory is opened.
fn open_held<'a>(dir: Cap, name: &Name, trace: StepSlice<'a>) -> Reading<'a>
    requires { IsHeldFront dir name.now trace }
    ensures { Reads (held_dir dir) trace.entry result }
{
    let trace = match done(Level::L13, LevelCall::Hold13, trace) {
        Ok(trace) => trace,
        Err(next) => return Reading::Next(next),
    };
    match done(Level::L11, LevelCall::Hold11, trace) {
        Ok(trace) => open_dir(dir, Right::Delete, trace),
        Err(next) => Reading::Next(next),
    }
}

// What the name names goes from the directory, and with it what hangs on it.
fn delete_in(dir: &Open<'_>, name: &Name, trace: StepSlice<'_>) -> Next
    requires named { IsName name.now }
    requires front { IsDeleting dir.now name.now trace }
    ensures { result ≡ next_of (followed (deleting dir.now name.now) trace.entry) }
{
    let ((uid, kind), trace) = match pick(dir, name, trace) {
        Ok(picked) => picked,
        Err(next) => return next,
    };
    match kind_gone(kind, uid, trace) {
        Ok(trace) => forget(dir, name, uid, trace),
        Err(next) => next,
    }
}

// The identifier and the kind of what is to go. Its call has the identifier, so the name is looked for only before that.
fn pick<'a>(
    dir: &Open<'_>,
    name: &Name,
    trace: StepSlice<'a>,
) -> Result<((Uid, Kind), StepSlice<'a>), Next>
    requires named { IsName name.now }
    requires front { IsDeleting dir.now name.now trace }
    ensures { MatchResult result (λ p. IsPicked dir.now name.now trace.entry p.0.0.0 p.0.1 p.1) (λ n. Stops (picking dir.now name.now) trace.entry n) }
{
    let Some((step, rest)) = trace.split_first() else {
        return Err(look(dir, name));
    };
    let Some(uid) = step.call.kind_asked() else {
        unreachable!();
    };
    match step.answer {
        LevelAnswer::Is(kind) => Ok(((uid, kind), rest)),
        LevelAnswer::No(refusal) => Err(refuse(refusal)),
        _ => Err(refuse(Refusal::Range)),
    }
}

// The name has to be that of a distinguished entry.
fn look(dir: &Open<'_>, name: &Name) -> Next
    requires { IsName name.now }
    ensures { Stops (picking dir.now name.now) [] result }
{
    let Some(found) = dir.find(name) else {
        return refuse(Refusal::UnknownName);
    };
    if !found.kept {
        return refuse(Refusal::NotDistinguished);
    }
    let uid = found.cap.uid();
    Next::Call(Level::L11, LevelCall::KindOf { uid })
}

// The object is forgotten, and its entry goes.
fn forget(dir: &Open<'_>, name: &Name, uid: Uid, trace: StepSlice<'_>) -> Next
    requires named { IsName name.now }
    requires entry { IsEntryOf dir.now name.now uid.0 }
    ensures { (found : Entered) → find dir.now.slots name.now ≡ Some found → result ≡ next_of (followed (forgotten dir.now found) trace.entry) }
{
    match done(Level::L11, LevelCall::Forget { uid }, trace) {
        Ok(trace) => clear(dir, name, trace),
        Err(next) => next,
    }
}

// The words of a free slot are written where the name was found. It is looked for again only for the call that does
// that.
fn clear(dir: &Open<'_>, name: &Name, trace: StepSlice<'_>) -> Next
    requires named { IsName name.now }
    requires entry { (found : Entered) × (find dir.now.slots name.now ≡ Some found) }
    ensures { (found : Entered) → find dir.now.slots name.now ≡ Some found → result ≡ next_of (followed (put_slot dir.now found.slot words_of_gone it_was_done) trace.entry) }
{
    let Some((step, _)) = trace.split_first() else {
        return match dir.find(name) {
            Some(found) => dir.write(found.slot, gone_words()),
            None => unreachable!(),
        };
    };
    match step.answer {
        LevelAnswer::No(refusal) => refuse(refusal),
        _ => fine(),
    }
}
