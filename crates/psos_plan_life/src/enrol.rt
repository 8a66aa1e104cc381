// A new user object is enrolled, and gets its distinguished entry.
ghost use Rattle.std.specs.Prelude.{◌≡◌, IsSome, true};
ghost use Rattle.psos_text.specs.Name.{IsName};
ghost use Rattle.psos_words.specs.Directory.{slot_for, entry_words as words_of_entry};
ghost use Rattle.psos_calls.specs.Plan.{give};
ghost use Rattle.psos_calls.specs.Plan.Parts.{enrolled, fine, put_slot};
ghost use Rattle.psos_calls.specs.Plan.Trace.{followed, next_of};
ghost use Rattle.psos_plan_life.specs.Parts.{ComesAfter};
ghost use Rattle.psos_plan_life.specs.Vacancies.{free_slot};

use crate::parts::done;
use crate::vacancy::Vacancy;
use psos_calls::close::{give, refuse};
use psos_calls::{Kind, Level, LevelAnswer, LevelCall, Next, StepSlice};
use psos_dirrep::entry_words;
use psos_text::Name;
use psos_words::Word;

// Where the object was made, it is enrolled, its entry is written, and the capability on it goes into a register.
pub(crate) fn enrol(
    vacancy: &Vacancy<'_>,
    name: &Name,
    kind: Kind,
    rd: u8,
    made: Result<StepSlice<'_>, Next>,
) -> Next
    requires named { IsName name.now }
    requires room { IsSome (slot_for vacancy.now.dir.slots) }
    ensures { ComesAfter made.entry (enrolled vacancy.now.dir (free_slot vacancy.now.dir) name.now kind vacancy.now.new rd) result }
{
    let trace = match made {
        Ok(trace) => trace,
        Err(next) => return next,
    };
    let uid = vacancy.new.uid();
    match done(Level::L11, LevelCall::Enrol { uid, kind }, trace) {
        Ok(trace) => enter(vacancy, name, rd, trace),
        Err(next) => next,
    }
}

// The entry is written. The slot is looked for again only for the call that does that.
fn enter(vacancy: &Vacancy<'_>, name: &Name, rd: u8, trace: StepSlice<'_>) -> Next
    requires named { IsName name.now }
    requires room { IsSome (slot_for vacancy.now.dir.slots) }
    ensures { result ≡ next_of (followed (put_slot vacancy.now.dir (free_slot vacancy.now.dir) (words_of_entry name.now vacancy.now.new true) (give rd (Word.Cap vacancy.now.new))) trace.entry) }
{
    let Some((step, _)) = trace.split_first() else {
        return put_entry(vacancy, name);
    };
    match step.answer {
        LevelAnswer::No(refusal) => refuse(refusal),
        _ => give(rd, Word::Cap(vacancy.new)),
    }
}

// The call that writes the entry into the least slot that is not used.
fn put_entry(vacancy: &Vacancy<'_>, name: &Name) -> Next
    requires named { IsName name.now }
    requires room { IsSome (slot_for vacancy.now.dir.slots) }
    ensures { result ≡ next_of (put_slot vacancy.now.dir (free_slot vacancy.now.dir) (words_of_entry name.now vacancy.now.new true) fine) }
{
    match vacancy.dir.free_slot() {
        Some(k) => vacancy.dir.write(k, entry_words(name, vacancy.new, true)),
        None => unreachable!(),
    }
}
