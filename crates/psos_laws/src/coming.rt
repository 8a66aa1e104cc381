// What a request puts where, before it is answered.
ghost use Rattle.std.specs.Prelude.{◌≡◌, ◌≤◌, ◌<◌, ◌+◌, ◌^◌, ℕ, [], ◌∷◌, ◌++◌, List, length, Some, OnOk, IfOk};
ghost use Rattle.std.specs.Vec.{vec_len, vec_capacity};
ghost use Rattle.psos_table.specs.Table.{at};
ghost use Rattle.psos_words.specs.declared.word.Word.{Word as WordValue};
ghost use Rattle.psos_words.specs.Words.{word_at};
ghost use Rattle.psos_calls.specs.Language.Script.{IsWellFormed};
ghost use Rattle.psos_calls.specs.Language.User.{here};
ghost use Rattle.psos_calls.specs.Language.Tests.{if_there};
ghost use Rattle.psos_model.specs.declared.place.Place.TheVariants.{FrameReg};
ghost use Rattle.psos_model.specs.Answer.CanStep.{CanStep};
ghost use Rattle.psos_model.specs.Flat.Places.{reg_place as place_of_reg};
ghost use Rattle.psos_laws.specs.Landings.{change_puts, effect_puts, passed};
ghost use Rattle.psos_laws.specs.Arrivals.{comes, came_by, came_in, drawn_by as drawn_from, opened_by as opened_from, IsComing};

use crate::arrival::Arrival;
use crate::arrivals::Arrivals;
use psos_calls::{Effect, Private, Script};
use psos_caps::Uid;
use psos_model::{Change, Flat, Place, Source, reg_place};
use psos_words::Word;
use std::alloc::{AllocError, Global};

/// What the next request of a user will put where, but for what the ends of bodies put; how many bodies are open before
/// it, and how many once its effect is made; and the registers that it names.
#[derive(Drop)]
pub(crate) struct Coming {
    pub arrivals: Arrivals,
    pub bodies: usize,
    pub opened: usize,
    pub caller: [Word; 16],
}

impl Coming {
    /// That of user u's next request. There is room for one arrival more. `Err` only where memory runs out.
    pub fn of(alloc: Global, flat: &Flat, script: &Script, user: u8) -> Result<Coming, AllocError>
        requires script { IsWellFormed script.now }
        requires state { CanStep flat.now user }
        requires few { (b : ℕ) (box : List WordValue) → at flat.now.boxes b ≡ Some box → length box ≤ 8 }
        ensures coming { IfOk result (λ k. IsComing script.now flat.now user k) }
        ensures room { IfOk result (λ k. vec_len k.arrivals.list < vec_capacity k.arrivals.list) }
        ensures bodies { IfOk result (λ k. k.bodies ≤ 4) }
        ensures opened { IfOk result (λ k. k.opened ≤ 5) }
    {
        let mut coming = Coming {
            arrivals: Arrivals {
                next: flat.next,
                list: Vec::new(alloc),
                drawn: None,
            },
            bodies: 0,
            opened: 0,
            caller: [Word::Data(0); 16],
        };
        if let Some(me) = flat.users.get(user) {
            coming.bodies = me.open_bodies();
            coming.caller = registers(me);
            if let Some(outcome) = flat.next_outcome(alloc, script, user)? {
                let changes = outcome.changes.as_slice();
                put_changes(&mut coming.arrivals.list, flat, outcome.source, changes)?;
                put_effect(
                    &mut coming.arrivals.list,
                    me,
                    outcome.source,
                    &outcome.effect,
                )?;
                coming.arrivals.drawn = drawn_by(changes);
                coming.opened = opened_by(me, &outcome.effect);
            }
        }
        coming.arrivals.list.try_reserve(1)?;
        Ok(coming)
    }
}

// The registers that a request names.
fn registers(me: &Private) -> [Word; 16]
    ensures { (i : ℕ) → i < 16 → word_at result i ≡ word_at (here me.now) i }
{
    let mut words = [Word::Data(0); 16];
    'registers: for i in 0..16u8 {
        words[i as usize] = me.here(i);
    }
    words
}

// The mailbox that changes draw from. None but the first draws.
fn drawn_by(changes: &[Change]) -> Option<u64>
    ensures { result ≡ drawn_from changes.now }
{
    match changes.first() {
        Some(Change::Draw { uid }) => Some(*uid),
        _ => None,
    }
}

// How many bodies are open once the effect is made.
fn opened_by(me: &Private, effect: &Effect) -> usize
    ensures count { result ≡ opened_from me.now effect.now }
    ensures few { result ≤ 5 }
{
    let open = me.open_bodies();
    match effect {
        Effect::Enter { .. } => open + 1,
        _ => open,
    }
}

// Adds what changes put.
fn put_changes(
    list: &mut Vec<Arrival>,
    flat: &Flat,
    source: Option<Source>,
    changes: &[Change],
) -> Result<(), AllocError>
    requires { (b : ℕ) (box : List WordValue) → at flat.now.boxes b ≡ Some box → length box ≤ 8 }
    ensures { OnOk result (list.new.items ≡ list.old.items ++ came_in flat.now source changes.now) }
{
    match changes.split_first() {
        Some((change, rest)) => {
            put_change(list, flat, source, change)?;
            put_changes(list, flat, source, rest)
        }
        None => Ok(()),
    }
}

// Adds what a change puts.
fn put_change(
    list: &mut Vec<Arrival>,
    flat: &Flat,
    source: Option<Source>,
    change: &Change,
) -> Result<(), AllocError>
    requires { (b : ℕ) (box : List WordValue) → at flat.now.boxes b ≡ Some box → length box ≤ 8 }
    ensures { OnOk result (list.new.items ≡ list.old.items ++ came_by (change_puts flat.now source change.now)) }
{
    match *change {
        Change::PutWord { uid, i, .. } => put(list, Place::SegWord { uid: Uid(uid), i }, source),
        Change::Bind { dir, name, .. } => put(
            list,
            Place::DirName {
                uid: Uid(dir),
                name,
            },
            source,
        ),
        Change::Register { dir, name, .. } => {
            put(
                list,
                Place::DirName {
                    uid: Uid(dir),
                    name,
                },
                None,
            )
        }
        Change::Post { uid, .. } => {
            let i = messages(flat, uid) as u8;
            put(list, Place::BoxAt { uid: Uid(uid), i }, source)
        }
        Change::MakeObject { uid, .. } => put(list, Place::ImplOf { uid: Uid(uid) }, None),
        Change::MakeDirectory { uid, .. } => put(list, Place::ImplOf { uid: Uid(uid) }, None),
        Change::MakeCode { uid, .. } => put(list, Place::Link { uid: Uid(uid) }, source),
        _ => Ok(()),
    }
}

// How many messages wait in a mailbox.
fn messages(flat: &Flat, uid: u64) -> usize
    requires { (b : ℕ) (box : List WordValue) → at flat.now.boxes b ≡ Some box → length box ≤ 8 }
    ensures count { result ≡ if_there (at flat.now.boxes uid) 0 (λ box. length box) }
    ensures few { result ≤ 8 }
{
    match flat.boxes.get(uid) {
        Some(mailbox) => mailbox.len(),
        None => 0,
    }
}

fn put(list: &mut Vec<Arrival>, place: Place, source: Option<Source>) -> Result<(), AllocError>
    ensures { OnOk result (list.new.items ≡ list.old.items ++ comes place source ∷ []) }
{
    list.push(Arrival { place, source })?;
    Ok(())
}

// Adds what an effect puts.
fn put_effect(
    list: &mut Vec<Arrival>,
    me: &Private,
    source: Option<Source>,
    effect: &Effect,
) -> Result<(), AllocError>
    ensures { OnOk result (list.new.items ≡ list.old.items ++ came_by (effect_puts me.now source effect.now)) }
{
    match *effect {
        Effect::Nothing => Ok(()),
        Effect::Put(i, _) => put(list, reg_place(me, i), source),
        Effect::Push(_) => {
            let i = me.path().len() as u8;
            let user = me.number();
            put(list, Place::PathAt { user, i }, source)
        }
        Effect::Enter { .. } => {
            pass(list, me, 4)?;
            pass(list, me, 5)?;
            pass(list, me, 6)?;
            pass(list, me, 7)?;
            put(list, inner(me, 14), source)
        }
    }
}

// Adds that the body that is entered has this register of where it is entered from.
fn pass(list: &mut Vec<Arrival>, me: &Private, i: u8) -> Result<(), AllocError>
    ensures { OnOk result (list.new.items ≡ list.old.items ++ came_by (passed me.now i ∷ [])) }
{
    let source = Source {
        place: reg_place(me, i),
        by: None,
    };
    put(list, inner(me, i), Some(source))
}

// A register of the body that is entered.
fn inner(me: &Private, i: u8) -> Place
    ensures { result ≡ FrameReg me.now.number (length me.now.frames) i }
{
    Place::FrameReg {
        user: me.number(),
        depth: me.open_bodies() as u8,
        i,
    }
}
