// A run by events.
ghost use Rattle.std.specs.Prelude.{◌≡◌, ◌<◌, ◌++◌, ◌∷◌, ◌↔◌, ◌⊎◌, ℕ, List, [], length, false, None, Some, IfOk, OnOk, IfErr, OnErr, IsTrue, option_map};
ghost use Rattle.psos_model.specs.Run.{has_left};
ghost use Rattle.psos_model.specs.Events.{is_enabled, event_of, core_step};
ghost use Rattle.psos_core.specs.Faults.{MayStop, CanStopAt};
ghost use Rattle.psos_core.specs.Serving.{Start};
ghost use Rattle.psos_core.specs.Plans.{next_for, may_go};
ghost use Rattle.psos_core.specs.Events.{core_state_of, IsAfter, MayGo, told};

use crate::serial::is_open;
use crate::step::step;
use crate::{Core, Event};
use psos_io::Store;
use psos_journal::StopCause;
use psos_model::none_left;
use std::alloc::Global;

impl<B: Store> Core<B> {
    /// Whether a user of the script may go on (docs/levels.md, "Locks"): it has a request left, and where its event is
    /// to take a lock, the lock is free and of a later level than all that the user holds. So it is of every core, also
    /// of one that was stopped, or that has run to its end. It takes no memory.
    pub fn enabled(&self, user: u8) -> bool
        requires { user < length self.now.script.users }
        ensures { result ≡ is_enabled self.now.script (core_state_of self.now) user }
    {
        self.may_go(user) && self.is_left(user)
    }

    // Whether a user has a request left.
    fn is_left(&self, user: u8) -> bool
        requires { user < length self.now.script.users }
        ensures { result ≡ has_left self.now.script self.now.levels.privates.value.items user }
    {
        let me = &self.levels.privates.as_slice()[user as usize];
        is_open(me) || self.ongoing.phases.is_current(user as usize)
    }

    // Whether the plan of a user's request may go on.
    fn may_go(&self, user: u8) -> bool
        requires { user < length self.now.script.users }
        ensures { result ≡ may_go (length self.now.script.users) self.now.ongoing.held user (next_for self.now.script (core_state_of self.now) user) }
    {
        self.ongoing.may_go(self.levels.privates.len() as u8, user)
    }

    /// Whether no user has a request left, of every core. Where the core is not stopped and a user has one left, some
    /// user may go on: a run by events is never stuck. It takes no memory.
    pub fn finished(&self) -> bool
        ensures over { IsTrue result ↔ ((u : ℕ) → has_left self.now.script self.now.levels.privates.value.items u ≡ false) }
        ensures goes_on { self.now.stopped ≡ None → result ≡ false → (v : ℕ) × IsTrue (is_enabled self.now.script (core_state_of self.now) v) }
    {
        none_left(
            &self.script,
            self.levels.privates.as_slice(),
            self.ongoing.phases.current(),
        )
    }

    /// Makes the event of a user that may go on, and tells what it was. A core that is not stopped goes on; and while a
    /// user has a request left, some user may go on (`finished`). It may stop for want of memory, but not at a take, and
    /// for a fault of the store, which its count shows, in a call of level 7 (docs/levels.md, "Locks"). Then no entry is
    /// added, and the core is as it was before the event, or as it is after it.
    pub fn event(&mut self, alloc: Global, user: u8) -> Result<Event, StopCause>
        requires may { MayGo self.old user }
        requires going { self.old.stopped ≡ None }
        ensures after { OnOk result ((start : Start) (turns : List ℕ) → IsAfter self.old start turns → IsAfter self.new start (turns ++ user ∷ [])) }
        ensures told { IfOk result (λ e. Some e ≡ option_map (told (length self.old.entries)) (event_of self.old.script (core_state_of self.old) user)) }
        ensures script { self.new.script ≡ self.old.script }
        ensures going { OnOk result (self.new.stopped ≡ None) }
        ensures stopped { IfErr result (λ cause. self.new.stopped ≡ Some cause) }
        ensures entries { OnErr result (self.new.entries ≡ self.old.entries) }
        ensures left { OnErr result ((start : Start) (turns : List ℕ) → IsAfter self.old start turns → IsAfter self.new start turns ⊎ IsAfter self.new start (turns ++ user ∷ [])) }
        ensures why { IfErr result (CanStopAt (event_of self.old.script (core_state_of self.old) user) (next_for self.old.script (core_step self.old.script (core_state_of self.old) user) user)) }
        ensures cause { MayStop (B.faults self.old.levels.pages.store) (B.faults self.new.levels.pages.store) result }
        ensures start { self.new.start_faults ≡ self.old.start_faults }
    {
        let made = step(
            alloc,
            &self.script,
            &mut self.levels,
            &mut self.ongoing,
            &mut self.entries,
            user,
        );
        if let Err(cause) = made {
            self.stopped = Some(cause);
        }
        made
    }
}
