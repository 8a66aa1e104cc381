// Outcomes of user objects.
ghost use Rattle.std.specs.Prelude.{◌≡◌, ◌+◌, ◌<◌, ◌^◌, [], ◌∷◌, true};
ghost use Rattle.psos_calls.specs.Language.Stores.{guard_of};
ghost use Rattle.psos_calls.specs.Language.User.{CanMake, User as UserValue};
ghost use Rattle.psos_model.specs.declared.change.Change.TheVariants.{Fresh};
ghost use Rattle.psos_model.specs.declared.outcome.Outcome.{Outcome as OutcomeValue};
ghost use Rattle.psos_model.specs.Answer.Outcomes.{make_in};
ghost use Rattle.psos_model.specs.Answer.Objects.{makes, drops, answer_impl, answer_mkseg, answer_mkdir, answer_mktype, answer_mkobj, answer_mkcode, answer_delete};
ghost use Rattle.psos_model.specs.Flat.Safe.{is_making, is_sure};
ghost use Rattle.psos_model.specs.Flat.Within.{unless};

use crate::access::{directory_by, no_entry};
use crate::guards::barred;
use crate::issue::full;
use crate::outcome::{by, does, gives, own, refuse, reg_place};
use crate::{Change, ChangeList, Flat, Object, Outcome, Place};
use psos_calls::{CodeRow, Kind, Private, Refusal, Right, Tab, has};
use psos_caps::{Cap, Rights};
use psos_limits::{MOST_OBJECTS, MOST_WORDS};
use psos_text::Name;
use psos_words::Word;

pub(crate) fn answer_impl(flat: &Flat, me: &Private, rd: u8, rt: u8, ro: u8) -> Outcome
    requires { (rd < 16) × (rt < 16) × (ro < 16) }
    ensures value { result ≡ answer_impl flat.now me.now rd rt ro }
    ensures fits { CanMake me.now result.effect }
{
    let Word::Cap(of) = me.here(rt) else {
        return refuse(Refusal::NotCap);
    };
    let Word::Cap(on) = me.here(ro) else {
        return refuse(Refusal::NotCap);
    };
    if flat.types.get(of.uid().0).is_none() {
        return refuse(Refusal::Absent(Kind::Typ));
    }
    if !has(of, Right::Impl) {
        return refuse(Refusal::Lacks(Right::Impl));
    }
    let Some(object) = flat.objects.get(on.uid().0) else {
        return refuse(Refusal::Absent(Kind::Object));
    };
    if object.of != of.uid().0 {
        return refuse(Refusal::WrongType);
    }
    gives(
        ChangeList::none(),
        rd,
        Word::Cap(full(object.rep)),
        by(Place::ImplOf { uid: on.uid() }, Right::Impl),
    )
}

pub(crate) fn answer_mkseg(
    flat: &Flat,
    me: &Private,
    rd: u8,
    rs: u8,
    name: Name,
    len: u64,
    guard: u8,
) -> Outcome
    requires { (rd < 16) × (rs < 16) }
    ensures value { result ≡ answer_mkseg flat.now me.now rd rs name len guard }
    ensures fits { CanMake me.now result.effect }
{
    let Word::Cap(dir) = me.here(rs) else {
        return refuse(Refusal::NotCap);
    };
    if len == 0 || len > MOST_WORDS as u64 {
        return refuse(Refusal::Range);
    }
    if let Some(refusal) = no_room(flat, dir, &name) {
        return refuse(refusal);
    }
    let making = Change::MakeSegment {
        uid: flat.next,
        len,
        guard: guard_of(guard),
    };
    makes(flat, making, dir, name, Kind::Segment, rd)
}

pub(crate) fn answer_mkdir(
    flat: &Flat,
    me: &Private,
    rd: u8,
    rs: u8,
    name: Name,
    guard: u8,
) -> Outcome
    requires registers { (rd < 16) × (rs < 16) }
    requires room { flat.now.next + 2 < 2 ^ 64 }
    ensures value { result ≡ answer_mkdir flat.now me.now rd rs name guard }
    ensures fits { CanMake me.now result.effect }
{
    let Word::Cap(dir) = me.here(rs) else {
        return refuse(Refusal::NotCap);
    };
    if let Some(refusal) = no_room(flat, dir, &name) {
        return refuse(refusal);
    }
    let making = Change::MakeDirectory {
        uid: flat.next,
        rep: flat.next + 1,
        guard: guard_of(guard),
    };
    makes_two(flat, making, dir, name, Kind::Directory, rd)
}

pub(crate) fn answer_mktype(flat: &Flat, me: &Private, rd: u8, rs: u8, name: Name) -> Outcome
    requires { (rd < 16) × (rs < 16) }
    ensures value { result ≡ answer_mktype flat.now me.now rd rs name }
    ensures fits { CanMake me.now result.effect }
{
    let Word::Cap(dir) = me.here(rs) else {
        return refuse(Refusal::NotCap);
    };
    if let Some(refusal) = no_room(flat, dir, &name) {
        return refuse(refusal);
    }
    makes(
        flat,
        Change::MakeType { uid: flat.next },
        dir,
        name,
        Kind::Typ,
        rd,
    )
}

pub(crate) fn answer_mkobj(
    flat: &Flat,
    me: &Private,
    rd: u8,
    rt: u8,
    rs: u8,
    name: Name,
    len: u64,
) -> Outcome
    requires registers { (rd < 16) × (rt < 16) × (rs < 16) }
    requires room { flat.now.next + 2 < 2 ^ 64 }
    ensures value { result ≡ answer_mkobj flat.now me.now rd rt rs name len }
    ensures fits { CanMake me.now result.effect }
{
    let Word::Cap(of) = me.here(rt) else {
        return refuse(Refusal::NotCap);
    };
    let Word::Cap(dir) = me.here(rs) else {
        return refuse(Refusal::NotCap);
    };
    if len == 0 || len > MOST_WORDS as u64 {
        return refuse(Refusal::Range);
    }
    if flat.life.len() >= MOST_OBJECTS {
        return refuse(Refusal::Exhausted(Tab::Objects));
    }
    let directory = match directory_by(flat, dir, Right::Create) {
        Ok(directory) => directory,
        Err(refusal) => return refuse(refusal),
    };
    if flat.types.get(of.uid().0).is_none() {
        return refuse(Refusal::Absent(Kind::Typ));
    }
    if !has(of, Right::Make) {
        return refuse(Refusal::Lacks(Right::Make));
    }
    if let Some(refusal) = no_entry(directory, &name) {
        return refuse(refusal);
    }
    let object = Object {
        of: of.uid().0,
        rep: flat.next + 1,
    };
    let making = Change::MakeObject {
        uid: flat.next,
        object,
        len,
    };
    makes_two(flat, making, dir, name, Kind::Object, rd)
}

pub(crate) fn answer_mkcode(
    flat: &Flat,
    me: &Private,
    rd: u8,
    rs: u8,
    name: Name,
    label: u8,
    rl: u8,
) -> Outcome
    requires { (rd < 16) × (rs < 16) × (rl < 16) }
    ensures value { result ≡ answer_mkcode flat.now me.now rd rs name label rl }
    ensures fits { CanMake me.now result.effect }
{
    let Word::Cap(dir) = me.here(rs) else {
        return refuse(Refusal::NotCap);
    };
    let link = me.here(rl);
    if let Some(bit) = barred(Rights::of(1), link) {
        return refuse(Refusal::Guarded(bit));
    }
    if let Some(refusal) = no_room(flat, dir, &name) {
        return refuse(refusal);
    }
    let making = Change::MakeCode {
        uid: flat.next,
        row: CodeRow { label, link },
    };
    gives(
        ChangeList::made(making, flat.next, dir.uid().0, name, Kind::Code),
        rd,
        Word::Cap(full(flat.next)),
        own(reg_place(me, rl)),
    )
}

pub(crate) fn answer_delete(flat: &Flat, me: &Private, rs: u8, name: Name) -> Outcome
    requires { rs < 16 }
    ensures value { result ≡ answer_delete flat.now me.now rs name }
    ensures fits { CanMake me.now result.effect }
{
    let Word::Cap(dir) = me.here(rs) else {
        return refuse(Refusal::NotCap);
    };
    let directory = match directory_by(flat, dir, Right::Delete) {
        Ok(directory) => directory,
        Err(refusal) => return refuse(refusal),
    };
    let Some(entry) = directory.names.get(&name) else {
        return refuse(Refusal::UnknownName);
    };
    if !entry.kept {
        return refuse(Refusal::NotDistinguished);
    }
    let uid = entry.cap.uid().0;
    let Some(kind) = flat.life.get(uid) else {
        return refuse(Refusal::NotDistinguished);
    };
    let last = Change::Unregister {
        uid,
        dir: dir.uid().0,
        name,
    };
    drops(flat, *kind, uid, last)
}

// What goes with a thing of this kind; its distinguished entry goes last.
fn drops(flat: &Flat, kind: Kind, uid: u64, last: Change) -> Outcome
    requires { is_sure last ≡ true }
    ensures value { result ≡ drops flat.now kind uid (last ∷ []) }
    ensures fits { (x : UserValue) → CanMake x result.effect }
{
    let first = match kind {
        Kind::Segment => Change::DropSegment { uid },
        Kind::Directory => {
            let Some(directory) = flat.dirs.get(uid) else {
                return refuse(Refusal::NotEmpty);
            };
            if directory.names.len() != 0 {
                return refuse(Refusal::NotEmpty);
            }
            Change::DropDirectory { uid }
        }
        Kind::Typ => {
            if flat.objects.has_type(uid) {
                return refuse(Refusal::NotEmpty);
            }
            Change::DropType { uid }
        }
        Kind::Object => {
            let Some(object) = flat.objects.get(uid) else {
                return refuse(Refusal::NotEmpty);
            };
            Change::DropObject {
                uid,
                rep: object.rep,
            }
        }
        Kind::Code => Change::DropCode { uid },
        Kind::Process => return refuse(Refusal::NotDistinguished),
    };
    does(ChangeList::two(first, last), None)
}

// Why there is no room for an object, and for its entry in a directory by a capability with the right create.
fn no_room(flat: &Flat, dir: Cap, name: &Name) -> Option<Refusal>
    ensures { (go : OutcomeValue) → make_in flat.now dir name.now go ≡ unless result go }
{
    if flat.life.len() >= MOST_OBJECTS {
        return Some(Refusal::Exhausted(Tab::Objects));
    }
    match directory_by(flat, dir, Right::Create) {
        Ok(directory) => no_entry(directory, name),
        Err(refusal) => Some(refusal),
    }
}

// A new user object whose identifier is the next.
fn makes(flat: &Flat, making: Change, dir: Cap, name: Name, kind: Kind, rd: u8) -> Outcome
    requires making { is_making making ≡ true }
    requires register { rd < 16 }
    ensures value { result ≡ makes flat.now making dir name kind [] rd }
    ensures fits { (x : UserValue) → CanMake x result.effect }
{
    gives(
        ChangeList::made(making, flat.next, dir.uid().0, name, kind),
        rd,
        Word::Cap(full(flat.next)),
        None,
    )
}

// The same, where the second new identifier is that of the representation.
fn makes_two(flat: &Flat, making: Change, dir: Cap, name: Name, kind: Kind, rd: u8) -> Outcome
    requires making { is_making making ≡ true }
    requires register { rd < 16 }
    ensures value { result ≡ makes flat.now making dir name kind (Fresh ∷ []) rd }
    ensures fits { (x : UserValue) → CanMake x result.effect }
{
    gives(
        ChangeList::made_two(making, flat.next, dir.uid().0, name, kind),
        rd,
        Word::Cap(full(flat.next)),
        None,
    )
}

// The guard that a request names, which always has bit 0.
fn guard_of(guard: u8) -> Rights
    ensures { result ≡ guard_of guard }
{
    Rights::of(u16::from(guard) | 1)
}
