// Segments and representations are made, and go.
ghost use Rattle.psos_plan_life.specs.Parts.{Tells, segmented, represented, directed, segment_dropped, object_dropped};

use crate::parts::{done, fresh, rep, slot};
use psos_calls::{Level, LevelCall, Next, StepSlice};
use psos_caps::{Rights, Uid};
use psos_limits::MOST_WORDS;

// A slot is taken, and a segment is made in it.
pub(crate) fn segment<'a>(
    uid: Uid,
    len: u16,
    guard: Rights,
    trace: StepSlice<'a>,
) -> Result<StepSlice<'a>, Next>
    ensures { Tells (segmented uid.0 len guard) trace.entry result }
{
    let (slot, trace) = slot(Level::L7, LevelCall::PageTake, trace)?;
    let call = LevelCall::SegMake {
        uid,
        slot,
        len,
        guard,
    };
    done(Level::L8, call, trace)
}

// A representation is made on a new identifier, and on it an object of this type, or of none.
pub(crate) fn representation<'a>(
    uid: Uid,
    len: u16,
    guard: Rights,
    of: Option<Uid>,
    trace: StepSlice<'a>,
) -> Result<StepSlice<'a>, Next>
    ensures { Tells (represented uid.0 len guard of) trace.entry result }
{
    let (rep, trace) = fresh(trace)?;
    let trace = segment(rep.uid(), len, guard, trace)?;
    done(Level::L9, LevelCall::ObjMake { uid, of, rep }, trace)
}

// A directory is made on a new representation, which has its guard.
pub(crate) fn directory<'a>(
    uid: Uid,
    guard: Rights,
    trace: StepSlice<'a>,
) -> Result<StepSlice<'a>, Next>
    ensures { Tells (directed uid.0 guard) trace.entry result }
{
    let trace = representation(uid, MOST_WORDS as u16, guard, None, trace)?;
    done(Level::L10, LevelCall::DirMake { uid, guard }, trace)
}

// A segment goes, and its slot is freed.
pub(crate) fn segment_gone<'a>(uid: Uid, trace: StepSlice<'a>) -> Result<StepSlice<'a>, Next>
    ensures { Tells (segment_dropped uid.0) trace.entry result }
{
    let (slot, trace) = slot(Level::L8, LevelCall::SegGone { uid }, trace)?;
    done(Level::L7, LevelCall::PageDrop { slot }, trace)
}

// An object or a directory goes from level 9, and its representation with it.
pub(crate) fn object_gone<'a>(uid: Uid, trace: StepSlice<'a>) -> Result<StepSlice<'a>, Next>
    ensures { Tells (object_dropped uid.0) trace.entry result }
{
    let (rep, trace) = rep(Level::L9, LevelCall::ObjGone { uid }, trace)?;
    segment_gone(rep, trace)
}
