// A directory is read, after the answers so far.
ghost use Rattle.std.specs.Prelude.{◌≡◌, []};
ghost use Rattle.psos_words.specs.Directory.{has_never};
ghost use Rattle.psos_dirrep.specs.Pages.{AreSlots};
ghost use Rattle.psos_calls.specs.Plan.Parts.{read_dir as dir_read, read_pages as pages_read, read_rep as rep_read};
ghost use Rattle.psos_plan_dir.specs.Pages.{is_more as more, last_page};
ghost use Rattle.psos_plan_dir.specs.Reads.{open_with, IsCapFront, IsDirFront, IsRepFront, IsSlotFront, Reads};

use crate::{Open, Reading};
use psos_calls::close::refuse;
use psos_calls::{Level, LevelAnswer, LevelCall, Next, Refusal, Right, StepSlice};
use psos_caps::{Cap, Uid};
use psos_dirrep::ends_never;

/// Opens a directory by a capability with a right (docs/requests.md, "Plans"): `DirAt`, and what `read_dir` reads. Its
/// guard is not looked at. The trace begins where `DirAt` is asked for.
pub fn open_dir<'a>(cap: Cap, right: Right, trace: StepSlice<'a>) -> Reading<'a>
    requires { IsCapFront cap right trace }
    ensures { Reads (open_with cap right) trace.entry result }
{
    let Some((a, rest)) = trace.split_first() else {
        return Reading::Next(Next::Call(Level::L10, LevelCall::DirAt { cap, right }));
    };
    match a.answer {
        LevelAnswer::Guard(_) => read_dir(cap.uid(), rest),
        LevelAnswer::No(refusal) => Reading::Next(refuse(refusal)),
        _ => Reading::Next(refuse(Refusal::Range)),
    }
}

/// Reads the directory of an identifier, which is live: `RepOf`, and what `read_rep` reads. The trace begins where
/// `RepOf` is asked for.
pub fn read_dir<'a>(dir: Uid, trace: StepSlice<'a>) -> Reading<'a>
    requires { IsDirFront dir.0 trace }
    ensures { Reads (dir_read dir.0) trace.entry result }
{
    let Some((a, rest)) = trace.split_first() else {
        return Reading::Next(Next::Call(Level::L9, LevelCall::RepOf { uid: dir }));
    };
    match a.answer {
        LevelAnswer::Rep(rep) => read_rep(rep, rest),
        LevelAnswer::No(refusal) => Reading::Next(refuse(refusal)),
        _ => Reading::Next(refuse(Refusal::Range)),
    }
}

/// Reads the directory of a representation, which is live: `SlotOf`, and a `PageGet` for each page up to the first that
/// has a slot that was never used. The trace begins where `SlotOf` is asked for.
pub fn read_rep<'a>(rep: Uid, trace: StepSlice<'a>) -> Reading<'a>
    requires { IsRepFront rep.0 trace }
    ensures { Reads (rep_read rep.0) trace.entry result }
{
    let Some((a, rest)) = trace.split_first() else {
        return Reading::Next(Next::Call(Level::L8, LevelCall::SlotOf { uid: rep }));
    };
    match a.answer {
        LevelAnswer::Slot(slot) => read_pages(slot, rest),
        LevelAnswer::No(refusal) => Reading::Next(refuse(refusal)),
        _ => Reading::Next(refuse(Refusal::Range)),
    }
}

// Reads the pages of a slot. While they are read it looks at the last of them alone.
fn read_pages<'a>(slot: u16, trace: StepSlice<'a>) -> Reading<'a>
    requires { IsSlotFront slot trace }
    ensures { Reads (pages_read 8 slot 0 []) trace.entry result }
{
    let (pages, rest) = trace.split_at(trace.pages_first());
    if is_more(&pages, &rest) {
        let page = 8 * slot + pages.len() as u16;
        return Reading::Next(Next::Call(Level::L7, LevelCall::PageGet { page }));
    }
    Reading::Done(Open::of(slot, pages), rest)
}

// Whether one more page is to be read.
fn is_more(pages: &StepSlice<'_>, rest: &StepSlice<'_>) -> bool
    requires { AreSlots (last_page [] pages.now) }
    ensures { result ≡ more 8 [] pages.now rest.now }
{
    rest.is_empty() && pages.len() < 8 && !last_has_never(pages)
}

// Whether the last page, which is one of a directory, has a slot that was never used.
fn last_has_never(pages: &StepSlice<'_>) -> bool
    requires { AreSlots (last_page [] pages.now) }
    ensures { result ≡ has_never (last_page [] pages.now) }
{
    match pages.last() {
        Some(last) => match &last.answer {
            LevelAnswer::Whole(page) => ends_never(page.page()),
            _ => false,
        },
        None => false,
    }
}
