// Who has a request left.
ghost use Rattle.std.specs.Prelude.{◌≡◌, ◌<◌, ◌||◌, ℕ, false, not, length, map, IsTrue, IfSome, ◌↔◌};
ghost use Rattle.std.specs.List.{list_all};
ghost use Rattle.psos_model.specs.Run.{phase_at, phase_of, earlier, current_phase, is_now, has_left, is_open};

use crate::Flat;
use psos_calls::{Private, Request, Script};

impl Flat {
    /// Whether user u has a request left: a line of an open body, or an unanswered request of the current phase. It
    /// takes no memory.
    pub fn left(&self, script: &Script, u: u8) -> bool
        ensures { result ≡ has_left script.now self.now.users u }
    {
        match self.users.get(u) {
            Some(me) => is_left(script, me, current_phase(script, self.users.as_slice())),
            None => false,
        }
    }

    /// Whether no user has a request left. It takes no memory.
    pub fn finished(&self, script: &Script) -> bool
        ensures { IsTrue result ↔ ((u : ℕ) → has_left script.now self.now.users u ≡ false) }
    {
        let users = self.users.as_slice();
        none_left(script, users, current_phase(script, users))
    }
}

/// Whether none of these users has a request left, where this is the current phase of all (docs/promises.md, "Runs").
/// It takes no memory.
pub fn none_left(script: &Script, users: &[Private], current: Option<usize>) -> bool
    ensures { result ≡ list_all (λ x. not (is_open x.frames || is_now (phase_of script.now x) current)) users.now }
{
    match users.split_first() {
        Some((me, others)) => {
            !is_left(script, me, current) && none_left(script, others, current)
        }
        None => true,
    }
}

/// Whether a user has a request left, where this is the current phase of all users (docs/promises.md, "Runs"): a line
/// of an open body, or an unanswered request of that phase. It takes no memory.
pub fn is_left(script: &Script, me: &Private, current: Option<usize>) -> bool
    ensures { result ≡ (is_open me.now.frames || is_now (phase_of script.now me.now) current) }
{
    is_open(me) || is_now(phase_of(script, me), current)
}

fn is_open(me: &Private) -> bool
    ensures { result ≡ is_open me.now.frames }
{
    me.label_and_line().is_some()
}

fn is_now(phase: Option<usize>, current: Option<usize>) -> bool
    ensures { result ≡ is_now phase current }
{
    match (phase, current) {
        (Some(p), Some(q)) => p == q,
        _ => false,
    }
}

/// The least phase in which one of these users has a request left (docs/promises.md, "Runs"). It takes no memory.
pub fn current_phase(script: &Script, users: &[Private]) -> Option<usize>
    ensures { result ≡ current_phase script.now users.now }
{
    match users.split_first() {
        Some((me, others)) => earlier(phase_of(script, me), current_phase(script, others)),
        None => None,
    }
}

fn earlier(phase: Option<usize>, other: Option<usize>) -> Option<usize>
    ensures { result ≡ earlier phase other }
{
    match (phase, other) {
        (Some(p), Some(q)) => Some(p.min(q)),
        (Some(p), None) => Some(p),
        (None, q) => q,
    }
}

// The phase of what a user asks next.
fn phase_of(script: &Script, me: &Private) -> Option<usize>
    ensures { result ≡ phase_of script.now me.now }
{
    let Some(user) = script.users().get(me.number() as usize) else {
        return None;
    };
    let answered = me.answered() as usize;
    if is_open(me) {
        return phase_at(user.phases(), answered.saturating_sub(1));
    }
    phase_at(user.phases(), answered)
}

// The phase of request k.
fn phase_at(phases: &[Vec<Request>], k: usize) -> Option<usize>
    ensures phase { result ≡ phase_at (map (λ p. p.items) phases.now) k }
    ensures small { IfSome result (λ p. p < length phases.now) }
{
    let Some((phase, later)) = phases.split_first() else {
        return None;
    };
    if k < phase.len() {
        return Some(0);
    }
    match phase_at(later, k - phase.len()) {
        Some(p) => Some(p + 1),
        None => None,
    }
}
