// What a run keeps of its requests, to tell origins.
ghost use Rattle.std.specs.Prelude.{◌≡◌, ◌≤◌, ◌<◌, ◌+◌, ◌*◌, ◌^◌, ℕ, [], ◌∷◌, ◌++◌, List, length, reverse, slice_get, Some, IsSome, IfOk, IfSome, IfNone, OnOk, OnErr};
ghost use Rattle.std.specs.Vec.{vec_len, vec_capacity};
ghost use Rattle.psos_laws.specs.History.{way_by as way_from, origin_by as origin_from};
ghost use Rattle.psos_table.specs.Table.{at};
ghost use Rattle.psos_words.specs.declared.word.Word.{Word as WordValue};
ghost use Rattle.psos_calls.specs.Language.Script.{IsWellFormed};
ghost use Rattle.psos_calls.specs.Language.User.{User};
ghost use Rattle.psos_model.specs.Answer.CanStep.{CanStep};
ghost use Rattle.psos_laws.specs.Arrivals.{told, came_out, IsComing, AddsArrivals};

use crate::arrival::Arrival;
use crate::arrivals::{Arrivals, drawn_since, last_to};
use crate::coming::Coming;
use crate::{Origin, Way};
use psos_calls::{Private, Script};
use psos_caps::Cap;
use psos_model::{Flat, Place, Source, reg_place};
use psos_words::Word;
use std::alloc::{AllocError, Global};

/// What each request of a run put where, the oldest in front; and for each user and depth the registers of the open
/// body
/// there, where it is not the innermost.
#[derive(Drop)]
pub(crate) struct Origins {
    pub past: Vec<Arrivals>,
    pub callers: Vec<[Word; 16]>,
}

impl Origins {
    /// No request. `Err` only where memory runs out.
    pub fn new(alloc: Global) -> Result<Origins, AllocError>
        ensures past { IfOk result (λ o. o.past.items ≡ []) }
        ensures callers { IfOk result (λ o. length o.callers.items ≡ 32) }
    {
        let mut callers = Vec::new(alloc);
        callers.resize(32, [Word::Data(0); 16])?;
        Ok(Origins {
            past: Vec::new(alloc),
            callers,
        })
    }

    /// The origin that the requests tell, of a capability at a place.
    pub fn told(&self, place: &Place, cap: Cap) -> Origin
        requires { length self.now.past.items < 2 ^ 32 }
        ensures { result ≡ told (reverse self.now.past.items) place.now cap }
    {
        let mut rest = self.past.as_slice();
        let mut drawn = 0;
        'past: while let Some((last, earlier)) = rest.split_last() {
            if let Some(source) = last_to(None, last.list.as_slice(), place, drawn) {
                return origin_by(earlier.len() as u32, last.next, cap, source);
            }
            drawn = drawn_since(place, drawn, last.drawn);
            rest = earlier;
        }
        Origin {
            stamp: None,
            way: Way::Boot,
        }
    }

    /// What the next request of a user will put, with room to keep it. `Err` only where memory runs out.
    pub fn coming(
        &mut self,
        alloc: Global,
        flat: &Flat,
        script: &Script,
        user: u8,
    ) -> Result<Coming, AllocError>
        requires script { IsWellFormed script.now }
        requires state { CanStep flat.now user }
        requires few { (b : ℕ) (box : List WordValue) → at flat.now.boxes b ≡ Some box → length box ≤ 8 }
        ensures past { self.new.past.items ≡ self.old.past.items }
        ensures callers { self.new.callers.items ≡ self.old.callers.items }
        ensures coming { IfOk result (λ k. IsComing script.now flat.now user k) }
        ensures room { OnOk result (vec_len self.new.past < vec_capacity self.new.past) }
        ensures list { IfOk result (λ k. vec_len k.arrivals.list < vec_capacity k.arrivals.list) }
        ensures bodies { IfOk result (λ k. k.bodies ≤ 4) }
        ensures opened { IfOk result (λ k. k.opened ≤ 5) }
    {
        self.past.try_reserve(1)?;
        Coming::of(alloc, flat, script, user)
    }

    /// Keeps what the request of a user put, once it is answered: this is the state after it.
    pub fn keep(&mut self, coming: Coming, user: u8, flat: &Flat)
        requires past { vec_len self.old.past < vec_capacity self.old.past }
        requires list { vec_len coming.arrivals.list < vec_capacity coming.arrivals.list }
        requires bodies { coming.bodies ≤ 4 }
        requires opened { coming.opened ≤ 5 }
        requires callers { length self.old.callers.items ≡ 32 }
        requires user { user < 8 }
        ensures { (y : User) → slice_get flat.now.users user ≡ Some y → AddsArrivals coming user y self.old self.new }
    {
        let Some(me) = flat.users.get(user) else {
            return;
        };
        let bodies = coming.bodies;
        let caller = coming.caller;
        self.past.push_reserved(closed(coming, me));
        if 0 < bodies {
            self.callers[4 * user as usize + (bodies - 1)] = caller;
        }
    }
}

// What the request put, with what the ends of bodies put.
fn closed(coming: Coming, me: &Private) -> Arrivals
    requires list { vec_len coming.arrivals.list < vec_capacity coming.arrivals.list }
    requires opened { coming.opened ≤ 5 }
    ensures next { result.next ≡ coming.arrivals.next }
    ensures drawn { result.drawn ≡ coming.arrivals.drawn }
    ensures list { result.list.items ≡ coming.arrivals.list.items ++ came_out me.now coming.opened coming.arrivals.list.items }
{
    let end = end_of(me, coming.opened, coming.arrivals.list.as_slice());
    let mut arrivals = coming.arrivals;
    if let Some(end) = end {
        arrivals.list.push_reserved(end);
    }
    arrivals
}

// What the ends of bodies put, where so many were open: this is the user's part after it.
fn end_of(me: &Private, opened: usize, list: &[Arrival]) -> Option<Arrival>
    requires { opened ≤ 5 }
    ensures some { IfSome result (λ a. came_out me.now opened list.now ≡ a ∷ []) }
    ensures none { IfNone result (came_out me.now opened list.now ≡ []) }
{
    if me.open_bodies() >= opened {
        return None;
    }
    let inner = Place::FrameReg {
        user: me.number(),
        depth: (opened - 1) as u8,
        i: 4,
    };
    let source = match last_to(None, list, &inner, 0) {
        Some(source) => source,
        None => Some(Source {
            place: inner,
            by: None,
        }),
    };
    Some(Arrival {
        place: reg_place(me, 4),
        source,
    })
}

fn origin_by(stamp: u32, next: u64, cap: Cap, source: Option<Source>) -> Origin
    ensures { result ≡ origin_from stamp next cap source }
{
    Origin {
        stamp: Some(stamp),
        way: way_by(next, cap, source),
    }
}

// An identifier that was new was made, whatever was read.
fn way_by(next: u64, cap: Cap, source: Option<Source>) -> Way
    ensures { result ≡ way_from next cap source }
{
    match source {
        Some(read) => {
            if next <= cap.uid().0 {
                Way::Made
            } else {
                Way::Copied {
                    place: read.place,
                    by: read.by,
                }
            }
        }
        None => Way::Made,
    }
}
