// The flat state of a run, with the order that led to it.
ghost use Rattle.std.specs.Prelude.{◌≡◌, ℕ, [], ◌∷◌, ◌++◌, length, IsTrue, IfOk, OnOk, OnErr};
ghost use Rattle.psos_text.specs.declared.name.Name.{Name};
ghost use Rattle.psos_calls.specs.Language.Script.{IsWellFormed};
ghost use Rattle.psos_model.specs.Answer.{answer};
ghost use Rattle.psos_model.specs.Flat.Boot.{boot};
ghost use Rattle.psos_model.specs.Run.{run, has_left};
ghost use Rattle.psos_model.specs.Sound.Guarded.{IsGuarded};
ghost use Rattle.psos_model.specs.Sound.Kept.{IsKept};
ghost use Rattle.psos_model.specs.Sound.{IsSound};
ghost use Rattle.psos_laws.specs.History.{history, origin};
ghost use Rattle.psos_laws.specs.Trails.{IsConfined};
ghost use Rattle.psos_laws.specs.Laws.{IsLawful};
ghost use Rattle.psos_laws.specs.Watched.{script_of, order_of, flat_of, IsWatched, IsSame, IsLine};

use crate::Origin;
use crate::held::cap_at;
use crate::origins::Origins;
use psos_calls::{Line, Script};
use psos_model::{Flat, Place};
use std::alloc::{AllocError, Global};
use std::snapshot::Snapshot;

/// The flat state of a run, with the users that were answered so far, what each request put where, and, for clauses
/// alone,
/// the script that boot took (docs/promises.md, "Runs" and "Origins").
#[derive(Drop)]
pub struct Watched {
    flat: Flat,
    order: Vec<u8>,
    origins: Origins,
    script: Snapshot<Script>,
}

impl Watched {
    /// The flat state at boot, with nothing answered. `Err` only where memory runs out.
    pub fn boot(alloc: Global, script: &Script) -> Result<Watched, AllocError>
        requires { IsWellFormed script.now }
        ensures script { IfOk result (λ w. script_of w ≡ script.now) }
        ensures order { IfOk result (λ w. order_of w ≡ []) }
        ensures watched { IfOk result (λ w. IsWatched w) }
    {
        let flat = Flat::boot(alloc, script)?;
        let origins = Origins::new(alloc)?;
        Ok(Watched {
            flat,
            order: Vec::new(alloc),
            origins,
            script: Snapshot::of(script),
        })
    }

    /// The flat state.
    pub fn flat(&self) -> &Flat
        ensures { result.now ≡ flat_of self.now }
    {
        &self.flat
    }

    /// The users that were answered, the first in front.
    pub fn order(&self) -> &[u8]
        ensures { result.now ≡ order_of self.now }
    {
        self.order.as_slice()
    }

    /// The origin of the capability at a place, and none exactly where the place holds no capability: the stamp of the
    /// request that put it there, and how it came, or that it was there at boot (docs/promises.md, "Origins"). It takes
    /// no memory, and as long as the requests since then.
    pub fn origin(&self, place: &Place) -> Option<Origin>
        requires { IsWatched self.now }
        ensures { result ≡ origin (history (script_of self.now) (order_of self.now)) (flat_of self.now) place.now }
    {
        let cap = cap_at(&self.flat, self.origins.callers.as_slice(), place)?;
        Some(self.origins.told(place, cap))
    }

    /// Answers the next request of a user that has one left (`Flat::left`), and gives its line; the stamp is the number
    /// of requests that were answered before. After it the state is that of the order with this user more, and the
    /// laws of runs hold of it (docs/promises.md, "Sound states", "Origins", "Guarded, kept, sealed" and "Held back,
    /// confined"). `Err` only where memory runs out: nothing is changed.
    pub fn step(&mut self, alloc: Global, script: &Script, user: u8) -> Result<Line, AllocError>
        requires watched { IsWatched self.old }
        requires script { script_of self.old ≡ script.now }
        requires left { IsTrue (has_left script.now (flat_of self.old).users user) }
        ensures script { script_of self.new ≡ script.now }
        ensures order { OnOk result (order_of self.new ≡ order_of self.old ++ user ∷ []) }
        ensures watched { IsWatched self.new }
        ensures answer { IfOk result (λ l. IsLine l (length (order_of self.old)) (answer script.now (flat_of self.old) user).1) }
        ensures err { OnErr result (IsSame self.old self.new) }
        ensures sound { IsSound script.now (flat_of self.new) }
        ensures guarded { IsGuarded (flat_of self.new) }
        ensures kept { (home : ℕ → ℕ × Name) × IsKept home (flat_of self.new) }
        ensures lawful { IsLawful (boot script.now) (history script.now (order_of self.new)) (flat_of self.new) }
        ensures confined { (u x m : ℕ) → IsConfined (flat_of self.old) u x m → IsConfined (flat_of self.new) u x m }
    {
        let stamp = self.order.len() as u32;
        self.order.try_reserve(1)?;
        let coming = self.origins.coming(alloc, &self.flat, script, user)?;
        let answer = self.flat.step(alloc, script, user)?;
        self.order.push_reserved(user);
        self.origins.keep(coming, user, &self.flat);
        Ok(Line {
            user,
            n: answer.n,
            m: answer.m,
            stamp,
            reply: answer.reply,
        })
    }
}
