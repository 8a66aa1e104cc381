// Where the entry of a new user object goes.
ghost use Rattle.std.specs.Prelude.{◌≡◌, MatchResult};
ghost use Rattle.psos_text.specs.Name.{IsName};
ghost use Rattle.psos_plan_life.specs.Parts.{Stops};
ghost use Rattle.psos_plan_life.specs.Vacancies.{finding, making, opening, IsFinding, IsOpening, IsMaking, IsVacancy};
ghost use Rattle.psos_plan_dir.specs.Reads.{Reads};

use crate::parts::{done, fresh};
use psos_calls::close::refuse;
use psos_calls::{Level, LevelAnswer, LevelCall, Next, Refusal, Right, StepSlice};
use psos_caps::Cap;
use psos_plan_dir::{Open, Reading, open_dir, read_rep};
use psos_text::Name;

/// The directory in which a new user object gets its entry, and the capability on the new object.
#[derive(Drop)]
pub(crate) struct Vacancy<'a> {
    pub(crate) dir: Open<'a>,
    pub(crate) new: Cap,
}

// Room for one more object, then room in the directory, then a new identifier. With a type, for an object of that.
pub(crate) fn make_in<'a>(
    dir: Cap,
    of: Option<Cap>,
    name: &Name,
    trace: StepSlice<'a>,
) -> Result<(Vacancy<'a>, StepSlice<'a>), Next>
    requires named { IsName name.now }
    requires front { IsMaking dir of name.now trace }
    ensures { MatchResult result (λ p. IsVacancy (making dir of name.now) trace.entry p.0.dir p.0.new p.1) (λ n. Stops (making dir of name.now) trace.entry n) }
{
    let trace = done(Level::L11, LevelCall::Room, trace)?;
    let (dir, trace) = match open_for(dir, of, trace) {
        Reading::Next(next) => return Err(next),
        Reading::Done(dir, rest) => (dir, rest),
    };
    let (new, trace) = find_vacancy(&dir, name, trace)?;
    Ok((Vacancy { dir, new }, trace))
}

// Opens a directory to make something in it, an object of a type or what has none.
fn open_for<'a>(dir: Cap, of: Option<Cap>, trace: StepSlice<'a>) -> Reading<'a>
    requires { IsOpening dir of trace }
    ensures { Reads (opening dir of) trace.entry result }
{
    match of {
        Some(of) => open_typed(dir, of, trace),
        None => open_dir(dir, Right::Create, trace),
    }
}

// The type is looked at between the call for the directory's representation and the one for its slot.
fn open_typed<'a>(dir: Cap, of: Cap, trace: StepSlice<'a>) -> Reading<'a>
    requires { IsOpening dir (Some of) trace }
    ensures { Reads (opening dir (Some of)) trace.entry result }
{
    let Some((a, trace)) = trace.split_first() else {
        let right = Right::Create;
        return Reading::Next(Next::Call(Level::L10, LevelCall::DirAt { cap: dir, right }));
    };
    match a.answer {
        LevelAnswer::Guard(_) => {}
        LevelAnswer::No(refusal) => return Reading::Next(refuse(refusal)),
        _ => return Reading::Next(refuse(Refusal::Range)),
    }
    let Some((b, trace)) = trace.split_first() else {
        return Reading::Next(Next::Call(Level::L9, LevelCall::RepOf { uid: dir.uid() }));
    };
    let rep = match b.answer {
        LevelAnswer::Rep(rep) => rep,
        LevelAnswer::No(refusal) => return Reading::Next(refuse(refusal)),
        _ => return Reading::Next(refuse(Refusal::Range)),
    };
    match done(Level::L9, LevelCall::TypeAt { cap: of }, trace) {
        Ok(trace) => read_rep(rep, trace),
        Err(next) => Reading::Next(next),
    }
}

// A slot for the entry of a new name, and a new identifier. Where that was taken, the name and the slot were looked for.
fn find_vacancy<'a>(
    dir: &Open<'_>,
    name: &Name,
    trace: StepSlice<'a>,
) -> Result<(Cap, StepSlice<'a>), Next>
    requires named { IsName name.now }
    requires front { IsFinding dir.now name.now trace }
    ensures { MatchResult result (λ p. IsVacancy (finding dir.now name.now) trace.entry dir.now p.0 p.1) (λ n. Stops (finding dir.now name.now) trace.entry n) }
{
    if trace.is_empty() {
        return Err(match dir.room_for(name) {
            Ok(_) => Next::Call(Level::L0, LevelCall::Fresh),
            Err(refusal) => refuse(refusal),
        });
    }
    fresh(trace)
}
