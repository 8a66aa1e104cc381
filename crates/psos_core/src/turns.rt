// A run in drawn turns.
ghost use Rattle.std.specs.Prelude.{◌≡◌, ◌<◌, ◌≤◌, if◌then◌else◌, [], None, Some, length, OnOk, IfErr};
ghost use Rattle.std.specs.List.{filter, range_with_len, AllByRecursion};
ghost use Rattle.psos_model.specs.Flat.{Flat};
ghost use Rattle.psos_model.specs.Events.{is_enabled};
ghost use Rattle.psos_model.specs.Events.Turns.{IsTurnsOrderFrom};
ghost use Rattle.psos_core.specs.System.{system_of};
ghost use Rattle.psos_core.specs.Faults.{MayStop};
ghost use Rattle.psos_core.specs.Serving.{IsFrontFrom, AreSettledFrom, IsRunFrom};
ghost use Rattle.psos_core.specs.Events.{core_state_of, is_close, IsAfter, IsGoing};

use crate::{Core, Event};
use arrayvec::ArrayVec;
use psos_io::Store;
use psos_journal::StopCause;
use psos_sysproc::Turns;
use std::alloc::Global;

impl<B: Store> Core<B> {
    // All users, in the order of the script.
    fn everybody(&self) -> ArrayVec<u8, 8>
        ensures { result.items ≡ range_with_len 0 (length self.now.levels.privates.value.items) }
    {
        let mut users = ArrayVec::new();
        'users: for user in 0..self.levels.privates.len() {
            users.push(user as u8);
        }
        users
    }

    // Those of these users that may go on, in their order.
    fn enabled_among(&self, users: &[u8]) -> ArrayVec<u8, 8>
        requires few { length users.now ≤ 8 }
        requires users { AllByRecursion (λ user. user < length self.now.script.users) users.now }
        ensures { result.items ≡ filter (is_enabled self.now.script (core_state_of self.now)) users.now }
    {
        let mut among = ArrayVec::new();
        'users: for user in users {
            if self.enabled(*user) {
                among.push(*user);
            }
        }
        among
    }

    // Whom to ask after an event, where these might go on before it: only a close lets a user go on that might not.
    fn asked_after(&self, event: Event, among: ArrayVec<u8, 8>) -> ArrayVec<u8, 8>
        ensures { result.items ≡ (if is_close event then range_with_len 0 (length self.now.levels.privates.value.items) else among.items) }
    {
        if event.is_close() {
            return self.everybody();
        }
        among
    }

    /// Runs the script to its end in turns: each turn is the event of a user that is drawn among those that may go on
    /// (docs/program.md, "Turns"). Nothing was run before, and the run is not stopped. It stops for want of memory, or
    /// for a fault of the store, which its count shows; the entries are then those of the requests that closed before,
    /// all of them and no other.
    pub fn turns(&mut self, alloc: Global, seed: u64) -> Result<(), StopCause>
        ghost flat: { Flat }
        requires fresh { IsAfter self.old (record { system = system_of self.old.levels; flat = flat }) [] }
        requires going { self.old.stopped ≡ None }
        ensures run { OnOk result (IsRunFrom self.old.script (system_of self.old.levels) flat
            (IsTurnsOrderFrom self.old.script (system_of self.old.levels) seed)
            self.new.entries (system_of self.new.levels)) }
        ensures front { IsFrontFrom self.old.script (system_of self.old.levels) flat self.new.entries }
        ensures settled { AreSettledFrom self.old.script (system_of self.old.levels) self.new.entries self.new.levels.privates.value.items }
        ensures under_way { IsGoing self.new }
        ensures script { self.new.script ≡ self.old.script }
        ensures going { OnOk result (self.new.stopped ≡ None) }
        ensures stopped { IfErr result (λ cause. self.new.stopped ≡ Some cause) }
        ensures cause { MayStop (B.faults self.old.levels.pages.store) (B.faults self.new.levels.pages.store) result }
        ensures start { self.new.start_faults ≡ self.old.start_faults }
    {
        let mut draws = Turns::new(seed);
        let mut asked = self.everybody();
        'turns: loop {
            let among = self.enabled_among(asked.as_slice());
            if among.is_empty() {
                return Ok(());
            }
            let drawn = draws.pick(among.len() as u8);
            let event = self.event(alloc, among.as_slice()[drawn as usize])?;
            asked = self.asked_after(event, among);
        }
    }
}
