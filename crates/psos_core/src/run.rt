// A run of a script over the levels, on one thread.
ghost use Rattle.std.specs.Prelude.{◌≡◌, ◌≤◌, [], None, Some, IfOk, OnOk, IfErr};
ghost use Rattle.psos_io.specs.Causes.{Rose};
ghost use Rattle.psos_journal.specs.declared.stop_cause.StopCause.TheVariants as stops;
ghost use Rattle.psos_model.specs.Flat.{Flat};
ghost use Rattle.psos_model.specs.Events.Serial.{IsCoreStart};
ghost use Rattle.psos_model.specs.Run.SerialOrder.{IsSerialFrom};
ghost use Rattle.psos_core.specs.System.{system_of};
ghost use Rattle.psos_core.specs.Faults.{MayStop};
ghost use Rattle.psos_core.specs.Plans.{state_in, AreKnown, IsPlanned};
ghost use Rattle.psos_core.specs.EventStates.{GoesOn};
ghost use Rattle.psos_core.specs.Serving.{IsFrontFrom, AreSettledFrom, IsRunFrom};
ghost use Rattle.psos_core.specs.Parts.{levels_of_stop, store_of_stop};

use crate::ongoing::Ongoing;
use crate::serial::serve_phases;
use crate::{Levels, Parts};
use psos_calls::{Entry, Script, Trace};
use psos_io::Store;
use psos_journal::{Entries, StopCause};
use std::alloc::{AllocError, Global};
use std::snapshot::Snapshot;

/// A run of a script over the levels (docs/levels.md, "Levels"). Its fields are there to be read. In every core, also a
/// stopped one, what is kept of the users' plans goes with the levels, and where the store was the cause of a stop, its
/// count of faults is above that with which the core was made. A core that is not stopped goes on by events, or nobody
/// has a request left.
#[derive(Drop)]
pub struct Core<B: Store> {
    pub script: Script,
    pub levels: Levels<B>,
    /// Of the requests that closed, in their order.
    pub entries: Entries<Entry>,
    /// Why the run was stopped, if it was.
    pub stopped: Option<StopCause>,
    /// The store's count of faults when the core was made, for clauses alone.
    pub start_faults: Snapshot<u64>,
    // The calls of the open request of a serial run; it is emptied and used again.
    trace: Trace,
    // What users have under way in a run by events.
    pub(crate) ongoing: Ongoing,
    ghost planned: { IsPlanned script (state_in levels ongoing entries) ongoing.nexts.items ongoing.phases },
    ghost known: { stopped ≡ None → AreKnown ongoing.nexts.items },
    ghost goes_on: { stopped ≡ None → ∥ GoesOn script (state_in levels ongoing entries) ∥₁ },
    ghost later: { start_faults.value ≤ B.faults levels.pages.store },
    ghost rose: { stopped ≡ Some stops.Store → Rose start_faults.value (B.faults levels.pages.store) },
}

impl<B: Store> Core<B> {
    ghost use Rattle.psos_core.specs.Events.{IsAfter};

    /// A run that is to start from these levels, which stand for a sound flat state in which no request of the script
    /// is answered, no body is open and the next identifier is at most 2^63. `Err` only where memory runs out, which
    /// the traces of calls take.
    pub fn new(alloc: Global, script: Script, levels: Levels<B>) -> Result<Core<B>, AllocError>
        requires { (f : Flat) × IsCoreStart script (system_of levels) f }
        ensures events { IfOk result (λ core. (f : Flat) → IsCoreStart script (system_of levels) f →
            IsAfter core (record { system = system_of levels; flat = f }) []) }
        ensures script { IfOk result (λ core. core.script ≡ script) }
        ensures levels { IfOk result (λ core. core.levels ≡ levels) }
        ensures entries { IfOk result (λ core. core.entries ≡ []) }
        ensures going { IfOk result (λ core. core.stopped ≡ None) }
        ensures start { IfOk result (λ core. core.start_faults.value ≡ B.faults levels.pages.store) }
    {
        let ongoing = Ongoing::new(alloc, &script, levels.privates.as_slice())?;
        let faults = levels.pages.store_faults();
        Ok(Core {
            script,
            levels,
            entries: Entries::empty(alloc),
            stopped: None,
            start_faults: Snapshot::of(&faults),
            trace: Trace::new(alloc)?,
            ongoing,
        })
    }

    /// Runs the script to its end: phase by phase, and in each phase user by user in the order of the script. Nothing
    /// was run before, and the run is not stopped. It stops for want of memory, or for a fault of the store, which its
    /// count shows; the entries are then those of the requests that closed before, all of them and no other.
    pub fn serial(&mut self, alloc: Global) -> Result<(), StopCause>
        ghost flat: { Flat }
        requires start { IsCoreStart self.old.script (system_of self.old.levels) flat }
        requires fresh { self.old.entries ≡ [] }
        requires going { self.old.stopped ≡ None }
        ensures run { OnOk result (IsRunFrom self.old.script (system_of self.old.levels) flat (IsSerialFrom self.old.script flat)
            self.new.entries (system_of self.new.levels)) }
        ensures front { IsFrontFrom self.old.script (system_of self.old.levels) flat self.new.entries }
        ensures settled { AreSettledFrom self.old.script (system_of self.old.levels) self.new.entries self.new.levels.privates.value.items }
        ensures script { self.new.script ≡ self.old.script }
        ensures going { OnOk result (self.new.stopped ≡ None) }
        ensures stopped { IfErr result (λ cause. self.new.stopped ≡ Some cause) }
        ensures cause { MayStop (B.faults self.old.levels.pages.store) (B.faults self.new.levels.pages.store) result }
        ensures start { self.new.start_faults ≡ self.old.start_faults }
    {
        let ran = serve_phases(
            alloc,
            &self.script,
            &mut self.levels,
            &mut self.trace,
            &mut self.entries,
        );
        // Nothing of it was under way by events.
        self.ongoing
            .begin(alloc, &self.script, self.levels.privates.as_slice());
        if let Err(cause) = ran {
            self.stopped = Some(cause);
        }
        ran
    }

    /// The script, the entries and the levels of a run that was not stopped.
    pub fn into_run(self) -> (Script, Entries<Entry>, Levels<B>)
        requires going { self.stopped ≡ None }
        ensures script { result.0 ≡ self.script }
        ensures entries { result.1 ≡ self.entries }
        ensures levels { result.2 ≡ self.levels }
    {
        (self.script, self.entries, self.levels)
    }

    /// The script, and what the run leaves. The levels are given where it was not stopped, and the store where it was:
    /// for the store only where more of its calls have failed than when the core was made.
    pub fn into_parts(self) -> (Script, Parts<B>)
        ensures script { result.0 ≡ self.script }
        ensures entries { result.1.entries ≡ self.entries }
        ensures levels { result.1.levels ≡ levels_of_stop self.stopped self.levels }
        ensures store { result.1.store ≡ store_of_stop self.stopped self.levels.pages.store }
        ensures store_faults { result.1.store_faults ≡ B.faults self.levels.pages.store }
        ensures stopped { result.1.stopped ≡ self.stopped }
        ensures rose { result.1.stopped ≡ Some StopCause.Store → Rose self.start_faults.value result.1.store_faults }
    {
        let Core {
            script,
            levels,
            entries,
            stopped,
            start_faults: _,
            trace: _,
            ongoing: _,
        } = self;
        (script, Parts::new(entries, levels, stopped))
    }
}
