// What goes with a thing that is deleted, by its kind.
ghost use Rattle.psos_calls.specs.declared.kind.Kind.TheVariants.{Directory};
ghost use Rattle.psos_plan_life.specs.Parts.{Tells};
ghost use Rattle.psos_plan_life.specs.Deletion.{kind_dropped, emptied, IsDropping, IsEmptying};

use crate::parts::done;
use crate::segments::{object_gone, segment_gone};
use psos_calls::close::refuse;
use psos_calls::{Kind, Level, LevelCall, Next, Refusal, StepSlice};
use psos_caps::Uid;
use psos_plan_dir::{Open, Reading, read_dir};

pub(crate) fn kind_gone<'a>(
    kind: Kind,
    uid: Uid,
    trace: StepSlice<'a>,
) -> Result<StepSlice<'a>, Next>
    requires { IsDropping kind uid.0 trace }
    ensures { Tells (kind_dropped kind uid.0) trace.entry result }
{
    match kind {
        Kind::Segment => segment_gone(uid, trace),
        Kind::Directory => directory_gone(uid, trace),
        Kind::Typ => done(Level::L9, LevelCall::TypeGone { uid }, trace),
        Kind::Object => object_gone(uid, trace),
        Kind::Code => done(Level::L13, LevelCall::CodeGone { uid }, trace),
        Kind::Process => Err(refuse(Refusal::NotDistinguished)),
    }
}

// A directory that has no entry goes, and its representation.
fn directory_gone<'a>(uid: Uid, trace: StepSlice<'a>) -> Result<StepSlice<'a>, Next>
    requires { IsDropping Directory uid.0 trace }
    ensures { Tells (kind_dropped Directory uid.0) trace.entry result }
{
    let (inner, trace) = match read_dir(uid, trace) {
        Reading::Next(next) => return Err(next),
        Reading::Done(inner, rest) => (inner, rest),
    };
    let trace = empty_gone(&inner, uid, trace)?;
    object_gone(uid, trace)
}

// Once the call that follows was made, the directory is known to be empty.
fn empty_gone<'a>(inner: &Open<'_>, uid: Uid, trace: StepSlice<'a>) -> Result<StepSlice<'a>, Next>
    requires { IsEmptying inner.now uid.0 trace }
    ensures { Tells (emptied inner.now uid.0) trace.entry result }
{
    if trace.is_empty() {
        return Err(if inner.is_empty() {
            Next::Call(Level::L10, LevelCall::DirGone { uid })
        } else {
            refuse(Refusal::NotEmpty)
        });
    }
    done(Level::L10, LevelCall::DirGone { uid }, trace)
}
