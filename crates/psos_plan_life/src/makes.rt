// Plans that make a user object: what a request asks is looked at, then a vacancy is found, the thing is made, and it is
// enrolled.
ghost use Rattle.std.specs.Prelude.{◌≡◌, ◌<◌};
ghost use Rattle.psos_text.specs.Name.{IsName};
ghost use Rattle.psos_calls.specs.Language.User.{here};
ghost use Rattle.psos_calls.specs.Plan.Trace.{followed, next_of};
ghost use Rattle.psos_calls.specs.Plan.Objects.{plan_mkseg, plan_mkdir, plan_mktype, plan_mkobj, plan_mkcode};
ghost use Rattle.psos_plan_dir.specs.Reads.{IsRun};

use crate::enrol::enrol;
use crate::operands::{guard_of, segment_len};
use crate::parts::done;
use crate::segments::{directory, representation, segment};
use crate::vacancy::make_in;
use psos_calls::close::refuse;
use psos_calls::{Kind, Level, LevelCall, Next, Private, Refusal, StepSlice};
use psos_caps::Rights;
use psos_text::Name;
use psos_words::Word;

pub(crate) fn next_mkseg(
    me: &Private,
    rd: u8,
    rs: u8,
    name: &Name,
    len: u64,
    guard: u8,
    trace: StepSlice<'_>,
) -> Next
    requires source { rs < 16 }
    requires named { IsName name.now }
    requires run { IsRun (plan_mkseg (here me.now) rd rs name.now len guard) trace }
    ensures { result ≡ next_of (followed (plan_mkseg (here me.now) rd rs name.now len guard) trace.entry) }
{
    let Word::Cap(dir) = me.here(rs) else {
        return refuse(Refusal::NotCap);
    };
    let Some(len) = segment_len(len) else {
        return refuse(Refusal::Range);
    };
    let (vacancy, trace) = match make_in(dir, None, name, trace) {
        Ok(found) => found,
        Err(next) => return next,
    };
    let made = segment(vacancy.new.uid(), len, guard_of(guard), trace);
    enrol(&vacancy, name, Kind::Segment, rd, made)
}

pub(crate) fn next_mkdir(
    me: &Private,
    rd: u8,
    rs: u8,
    name: &Name,
    guard: u8,
    trace: StepSlice<'_>,
) -> Next
    requires source { rs < 16 }
    requires named { IsName name.now }
    requires run { IsRun (plan_mkdir (here me.now) rd rs name.now guard) trace }
    ensures { result ≡ next_of (followed (plan_mkdir (here me.now) rd rs name.now guard) trace.entry) }
{
    let Word::Cap(dir) = me.here(rs) else {
        return refuse(Refusal::NotCap);
    };
    let (vacancy, trace) = match make_in(dir, None, name, trace) {
        Ok(found) => found,
        Err(next) => return next,
    };
    let made = directory(vacancy.new.uid(), guard_of(guard), trace);
    enrol(&vacancy, name, Kind::Directory, rd, made)
}

pub(crate) fn next_mktype(me: &Private, rd: u8, rs: u8, name: &Name, trace: StepSlice<'_>) -> Next
    requires source { rs < 16 }
    requires named { IsName name.now }
    requires run { IsRun (plan_mktype (here me.now) rd rs name.now) trace }
    ensures { result ≡ next_of (followed (plan_mktype (here me.now) rd rs name.now) trace.entry) }
{
    let Word::Cap(dir) = me.here(rs) else {
        return refuse(Refusal::NotCap);
    };
    let (vacancy, trace) = match make_in(dir, None, name, trace) {
        Ok(found) => found,
        Err(next) => return next,
    };
    let uid = vacancy.new.uid();
    let made = done(Level::L9, LevelCall::TypeMake { uid }, trace);
    enrol(&vacancy, name, Kind::Typ, rd, made)
}

pub(crate) fn next_mkobj(
    me: &Private,
    rd: u8,
    rt: u8,
    rs: u8,
    name: &Name,
    len: u64,
    trace: StepSlice<'_>,
) -> Next
    requires of { rt < 16 }
    requires source { rs < 16 }
    requires named { IsName name.now }
    requires run { IsRun (plan_mkobj (here me.now) rd rt rs name.now len) trace }
    ensures { result ≡ next_of (followed (plan_mkobj (here me.now) rd rt rs name.now len) trace.entry) }
{
    let Word::Cap(of) = me.here(rt) else {
        return refuse(Refusal::NotCap);
    };
    let Word::Cap(dir) = me.here(rs) else {
        return refuse(Refusal::NotCap);
    };
    let Some(len) = segment_len(len) else {
        return refuse(Refusal::Range);
    };
    let (vacancy, trace) = match make_in(dir, Some(of), name, trace) {
        Ok(found) => found,
        Err(next) => return next,
    };
    let made = representation(vacancy.new.uid(), len, Rights::of(1), Some(of.uid()), trace);
    enrol(&vacancy, name, Kind::Object, rd, made)
}

pub(crate) fn next_mkcode(
    me: &Private,
    rd: u8,
    rs: u8,
    name: &Name,
    label: u8,
    rl: u8,
    trace: StepSlice<'_>,
) -> Next
    requires source { rs < 16 }
    requires linkage { rl < 16 }
    requires named { IsName name.now }
    requires run { IsRun (plan_mkcode (here me.now) rd rs name.now label rl) trace }
    ensures { result ≡ next_of (followed (plan_mkcode (here me.now) rd rs name.now label rl) trace.entry) }
{
    let Word::Cap(dir) = me.here(rs) else {
        return refuse(Refusal::NotCap);
    };
    let link = me.here(rl);
    let trace = match done(Level::L13, LevelCall::Admit { word: link }, trace) {
        Ok(trace) => trace,
        Err(next) => return next,
    };
    let (vacancy, trace) = match make_in(dir, None, name, trace) {
        Ok(found) => found,
        Err(next) => return next,
    };
    let uid = vacancy.new.uid();
    let made = done(Level::L13, LevelCall::CodeMake { uid, label, link }, trace);
    enrol(&vacancy, name, Kind::Code, rd, made)
}
