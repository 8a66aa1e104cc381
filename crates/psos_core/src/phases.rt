// The phases of all users.
ghost use Rattle.std.specs.Prelude.{◌≡◌, ◌<◌, length, replicate, slice_index_or, slice_set, None, IfOk};
ghost use Rattle.psos_model.specs.Run.{phase_of, earlier, is_now};
ghost use Rattle.psos_core.specs.Least.{least};
ghost use Rattle.psos_core.specs.UnderWay.{phases_most};

use psos_calls::{Private, Script, UserText};
use psos_model::current_phase;
use std::alloc::{AllocError, Global};
use std::marker::Model;
use std::slice;

/// The phase of what each user asks next, where anything is left to it. They are seen as a list, in the order of the
/// users. The least of them, which is the current phase, is kept beside them.
#[derive(Drop)]
pub(crate) struct Phases {
    each: Vec<Option<usize>>,
    current: Option<usize>,
}

impl Model for Phases {
    ghost use Rattle.std.specs.Prelude.{◌≡◌, ℕ, List, Option};
    ghost use Rattle.psos_core.specs.Least.{least};

    ghost Value = { List (Option ℕ) };

    ghost view = { λ p. p.each.items };

    ghost invariant = { λ p. p.current ≡ least p.each.items };
}

impl Phases {
    /// Nothing is left to any of so many users. `Err` only where memory runs out.
    pub fn new(alloc: Global, users: usize) -> Result<Phases, AllocError>
        ensures { IfOk result (λ phases. phases ≡ replicate users None) }
    {
        let mut each = Vec::with_capacity(alloc, users)?;
        each.resize(users, None)?;
        let current = least(&each);
        Ok(Phases { each, current })
    }

    /// A user's is this from now on.
    pub fn set(&mut self, user: usize, phase: Option<usize>)
        requires { user < length self.old }
        ensures { self.new ≡ slice_set self.old user phase }
    {
        self.each[user] = phase;
        self.current = least(&self.each);
    }

    /// The current phase.
    pub fn current(&self) -> Option<usize>
        ensures { result ≡ least self.now }
    {
        self.current
    }

    /// Whether a user's is the current phase.
    pub fn is_current(&self, user: usize) -> bool
        requires { user < length self.now }
        ensures { result ≡ is_now (slice_index_or self.now user None) (least self.now) }
    {
        match (self.each[user], self.current) {
            (Some(phase), Some(current)) => phase == current,
            _ => false,
        }
    }
}

/// As many phases as the user with the most has.
pub fn phases_of(users: &[UserText]) -> usize
    ensures { result ≡ phases_most users.now }
{
    let mut most = 0;
    'users: for user in users {
        most = most.max(user.phases().len());
    }
    most
}

/// The phase of what a user asks next: the current phase, if there were no other users.
pub fn phase_of(script: &Script, me: &Private) -> Option<usize>
    ensures { result ≡ phase_of script.now me.now }
{
    current_phase(script, slice::from_ref(me))
}

fn least(phases: &[Option<usize>]) -> Option<usize>
    ensures { result ≡ least phases.now }
{
    let mut least = None;
    'phases: for phase in phases {
        least = earlier(least, *phase);
    }
    least
}

fn earlier(phase: Option<usize>, other: Option<usize>) -> Option<usize>
    ensures { result ≡ earlier phase other }
{
    match (phase, other) {
        (Some(p), Some(q)) => Some(p.min(q)),
        (Some(p), None) => Some(p),
        (None, q) => q,
    }
}
