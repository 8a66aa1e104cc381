// What users have under way.
ghost use Rattle.std.specs.Prelude.{◌≡◌, ◌≤◌, ◌<◌, [], length, map, replicate, slice_index_or, IfOk, Option};
ghost use Rattle.psos_calls.specs.declared.next.Next.{Next};
ghost use Rattle.psos_calls.specs.Language.Script.{IsWellFormed};
ghost use Rattle.psos_calls.specs.Levels.{Levels};
ghost use Rattle.psos_calls.specs.Levels.Lists.{HasLists};
ghost use Rattle.psos_model.specs.Run.{phase_of};
ghost use Rattle.psos_core.specs.Plans.{call_in, known_of, may_go, AreFirst, IsLeveled, Tells};

use crate::phases::{Phases, phase_of};
use crate::planning::planned;
use crate::upcoming::Upcoming;
use psos_calls::{Level, LevelCall, Next, Private, Script, Trace, lock_of};
use psos_sysproc::Table;
use std::alloc::{AllocError, Global};

/// What users have under way: the locks that each holds, and the calls of its open request.
#[derive(Drop)]
pub(crate) struct Ongoing {
    pub held: Table,
    pub traces: Vec<Trace>,
    // What the plan of each user's next request does next.
    pub nexts: Vec<Upcoming>,
    // The phases of what users ask next.
    pub phases: Phases,
}

impl Ongoing {
    /// Nobody holds a lock, and no request is open. `Err` only where memory runs out.
    pub fn new(alloc: Global, script: &Script, users: &[Private]) -> Result<Ongoing, AllocError>
        requires script { IsWellFormed script.now }
        requires few { length users.now ≤ 8 }
        requires lists { (l : Levels) × HasLists l }
        ensures held { IfOk result (λ o. o.held ≡ replicate (length users.now) []) }
        ensures traces { IfOk result (λ o. o.traces.items ≡ replicate (length users.now) []) }
        ensures nexts { IfOk result (λ o. AreFirst script.now users.now o.nexts.items) }
        ensures phases { IfOk result (λ o. o.phases ≡ map (phase_of script.now) users.now) }
    {
        let mut traces = Vec::with_capacity(alloc, users.len())?;
        let mut nexts = Vec::with_capacity(alloc, users.len())?;
        'users: for _me in users {
            traces.push(Trace::new(alloc)?)?;
            nexts.push(Upcoming::Nothing)?;
        }
        let mut ongoing = Ongoing {
            held: Table::new(alloc, users.len() as u8)?,
            traces,
            nexts,
            phases: Phases::new(alloc, users.len())?,
        };
        ongoing.begin(alloc, script, users);
        Ok(ongoing)
    }

    /// Nobody holds a lock any more, and no request is open, whatever was under way. It takes no memory.
    pub fn begin(&mut self, alloc: Global, script: &Script, users: &[Private])
        requires script { IsWellFormed script.now }
        requires few { length users.now ≤ 8 }
        requires lists { (l : Levels) × HasLists l }
        requires held { length self.old.held ≡ length users.now }
        requires traces { length self.old.traces.items ≡ length users.now }
        requires all { length self.old.nexts.items ≡ length users.now }
        requires phases { length self.old.phases ≡ length users.now }
        ensures held { self.new.held ≡ replicate (length users.now) [] }
        ensures traces { self.new.traces.items ≡ replicate (length users.now) [] }
        ensures nexts { AreFirst script.now users.now self.new.nexts.items }
        ensures phases { self.new.phases ≡ map (phase_of script.now) users.now }
    {
        'users: for u in 0..users.len() {
            self.held.release(u as u8);
            self.traces[u].clear();
            self.nexts[u] = planned(alloc, script, &users[u], &self.traces[u]);
            self.phases.set(u, phase_of(script, &users[u]));
        }
    }

    /// The call that the plan of a user's request asks for.
    pub fn call_of(&self, user: u8) -> Option<(Level, LevelCall)>
        requires { user < length self.now.nexts.items }
        ensures { result ≡ call_in (known_of (slice_index_or self.now.nexts.items user Upcoming.Nothing)) }
    {
        match &self.nexts[user as usize] {
            Upcoming::Known(Next::Call(level, call)) => Some((*level, *call)),
            _ => None,
        }
    }

    /// Whether the plan of a user's request may go on, among so many users: with a call under a lock that the user
    /// holds or may take, or with the close.
    pub fn may_go(&self, users: u8, user: u8) -> bool
        requires users { users ≡ length self.now.held }
        requires user { user < length self.now.held }
        requires all { length self.now.nexts.items ≡ length self.now.held }
        requires level { IsLeveled (known_of (slice_index_or self.now.nexts.items user Upcoming.Nothing)) }
        ensures { (next : Option Next) → Tells (slice_index_or self.now.nexts.items user Upcoming.Nothing) next → result ≡ may_go users self.now.held user next }
    {
        match &self.nexts[user as usize] {
            Upcoming::Known(Next::Call(level, call)) => {
                let lock = lock_of(users, *level, call);
                self.held.may_hold(user, lock)
            }
            Upcoming::Known(Next::Close(_, _)) | Upcoming::Close => true,
            Upcoming::Nothing => false,
        }
    }
}
