// Outcomes of directories and name spaces.
ghost use Rattle.std.specs.Prelude.{◌≡◌, ◌<◌, ◌≤◌, [], length, drop, IfOk};
ghost use Rattle.psos_calls.specs.Language.User.{CanMake, User as UserValue};
ghost use Rattle.psos_words.specs.declared.word.Word.TheVariants.{Cap as CapWord};
ghost use Rattle.psos_calls.specs.declared.right.Right.TheVariants.{Lookup};
ghost use Rattle.psos_calls.specs.Language.Capabilities.{uid as uid_of};
ghost use Rattle.psos_model.specs.declared.place.Place.TheVariants.{DirName};
ghost use Rattle.psos_model.specs.Answer.Outcomes.{gives, by};
ghost use Rattle.psos_model.specs.Answer.Directories.{answer_lookup, answer_bind, answer_unbind, answer_list, answer_path, answer_find, find_in};
ghost use Rattle.psos_model.specs.Flat.Within.{found_in};

use crate::access::{directory_by, no_entry};
use crate::guards::barred;
use crate::outcome::{by, does, gives, own, refuse, reg_place};
use crate::{Change, ChangeList, Flat, Outcome, Place};
use psos_calls::{Effect, Path, Private, Refusal, Reply, Right, Tab, has};
use psos_caps::Cap;
use psos_limits::MOST_PATH;
use psos_text::Name;
use psos_words::Word;
use std::alloc::{AllocError, Global};

pub(crate) fn answer_lookup(flat: &Flat, me: &Private, rd: u8, rs: u8, name: Name) -> Outcome
    requires { (rd < 16) × (rs < 16) }
    ensures value { result ≡ answer_lookup flat.now me.now rd rs name }
    ensures fits { CanMake me.now result.effect }
{
    let Word::Cap(cap) = me.here(rs) else {
        return refuse(Refusal::NotCap);
    };
    let dir = match directory_by(flat, cap, Right::Lookup) {
        Ok(dir) => dir,
        Err(refusal) => return refuse(refusal),
    };
    let Some(entry) = dir.names.get(&name) else {
        return refuse(Refusal::UnknownName);
    };
    found_at(rd, cap, name, entry.cap)
}

// What a name stands for goes into a register.
fn found_at(rd: u8, dir: Cap, name: Name, cap: Cap) -> Outcome
    requires { rd < 16 }
    ensures value { result ≡ gives [] rd (CapWord cap) (by (DirName (uid_of dir.uid) name) Lookup) }
    ensures fits { (x : UserValue) → CanMake x result.effect }
{
    let place = Place::DirName {
        uid: dir.uid(),
        name,
    };
    gives(
        ChangeList::none(),
        rd,
        Word::Cap(cap),
        by(place, Right::Lookup),
    )
}

pub(crate) fn answer_bind(flat: &Flat, me: &Private, rs: u8, name: Name, rv: u8) -> Outcome
    requires { (rs < 16) × (rv < 16) }
    ensures value { result ≡ answer_bind flat.now me.now rs name rv }
    ensures fits { CanMake me.now result.effect }
{
    let Word::Cap(cap) = me.here(rs) else {
        return refuse(Refusal::NotCap);
    };
    let Word::Cap(value) = me.here(rv) else {
        return refuse(Refusal::NotCap);
    };
    let dir = match directory_by(flat, cap, Right::Bind) {
        Ok(dir) => dir,
        Err(refusal) => return refuse(refusal),
    };
    if let Some(bit) = barred(dir.guard, Word::Cap(value)) {
        return refuse(Refusal::Guarded(bit));
    }
    if let Some(refusal) = no_entry(dir, &name) {
        return refuse(refusal);
    }
    does(
        ChangeList::one(Change::Bind {
            dir: cap.uid().0,
            name,
            cap: value,
        }),
        own(reg_place(me, rv)),
    )
}

pub(crate) fn answer_unbind(flat: &Flat, me: &Private, rs: u8, name: Name) -> Outcome
    requires { rs < 16 }
    ensures value { result ≡ answer_unbind flat.now me.now rs name }
    ensures fits { CanMake me.now result.effect }
{
    let Word::Cap(cap) = me.here(rs) else {
        return refuse(Refusal::NotCap);
    };
    let dir = match directory_by(flat, cap, Right::Unbind) {
        Ok(dir) => dir,
        Err(refusal) => return refuse(refusal),
    };
    let Some(entry) = dir.names.get(&name) else {
        return refuse(Refusal::UnknownName);
    };
    if entry.kept {
        return refuse(Refusal::Distinguished);
    }
    does(
        ChangeList::one(Change::Unbind {
            dir: cap.uid().0,
            name,
        }),
        None,
    )
}

/// The names are copied. `Err` only where memory runs out.
pub(crate) fn answer_list(
    alloc: Global,
    flat: &Flat,
    me: &Private,
    rs: u8,
) -> Result<Outcome, AllocError>
    requires { rs < 16 }
    ensures value { IfOk result (λ o. o ≡ answer_list flat.now me.now rs) }
    ensures fits { IfOk result (λ o. CanMake me.now o.effect) }
{
    let Word::Cap(cap) = me.here(rs) else {
        return Ok(refuse(Refusal::NotCap));
    };
    let dir = match directory_by(flat, cap, Right::List) {
        Ok(dir) => dir,
        Err(refusal) => return Ok(refuse(refusal)),
    };
    let names = dir.names.keys(alloc)?;
    Ok(Outcome {
        changes: ChangeList::none(),
        effect: Effect::Nothing,
        source: None,
        reply: Reply::Names(names),
    })
}

pub(crate) fn answer_path(flat: &Flat, me: &Private, rs: u8) -> Outcome
    requires { rs < 16 }
    ensures value { result ≡ answer_path flat.now me.now rs }
    ensures fits { CanMake me.now result.effect }
{
    let Word::Cap(cap) = me.here(rs) else {
        return refuse(Refusal::NotCap);
    };
    if me.path().len() >= MOST_PATH {
        return refuse(Refusal::Exhausted(Tab::Path));
    }
    if let Err(refusal) = directory_by(flat, cap, Right::Lookup) {
        return refuse(refusal);
    }
    Outcome {
        changes: ChangeList::none(),
        effect: Effect::Push(cap),
        source: own(reg_place(me, rs)),
        reply: Reply::Fine,
    }
}

pub(crate) fn answer_find(flat: &Flat, me: &Private, rd: u8, name: Name) -> Outcome
    requires { rd < 16 }
    ensures value { result ≡ answer_find flat.now me.now rd name }
    ensures fits { CanMake me.now result.effect }
{
    find_from(flat, me.path(), 0, rd, name)
}

// The first of the directories from number i on that is live, may be looked up and has the name.
fn find_from(flat: &Flat, path: &Path, i: usize, rd: u8, name: Name) -> Outcome
    requires register { rd < 16 }
    requires within { i ≤ length path.now }
    ensures value { result ≡ find_in flat.now (drop i path.now) rd name }
    ensures fits { (x : UserValue) → CanMake x result.effect }
{
    if i == path.len() {
        return refuse(Refusal::UnknownName);
    }
    let dir = path.get(i);
    match found_in(flat, dir, name) {
        Some(cap) => found_at(rd, dir, name, cap),
        None => find_from(flat, path, i + 1, rd, name),
    }
}

// What a name stands for in a directory that is live and may be looked up.
fn found_in(flat: &Flat, dir: Cap, name: Name) -> Option<Cap>
    ensures { result ≡ found_in flat.now dir name }
{
    let Some(directory) = flat.dirs.get(dir.uid().0) else {
        return None;
    };
    if !has(dir, Right::Lookup) {
        return None;
    }
    match directory.names.get(&name) {
        Some(entry) => Some(entry.cap),
        None => None,
    }
}
