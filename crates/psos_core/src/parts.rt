// What a run leaves.
ghost use Rattle.std.specs.Prelude.{◌≡◌};
ghost use Rattle.psos_core.specs.Parts.{levels_of_stop, store_of_stop};

use crate::Levels;
use psos_calls::Entry;
use psos_io::Store;
use psos_journal::{Entries, StopCause};

/// What a run leaves (docs/levels.md, "Levels").
#[derive(Drop)]
pub struct Parts<B: Store> {
    /// Of the requests that closed, in their order.
    pub entries: Entries<Entry>,
    /// The levels' states, where the run was not stopped.
    pub levels: Option<Levels<B>>,
    /// The backing store, where it was.
    pub store: Option<B>,
    /// How many calls of the store failed so far.
    pub store_faults: u64,
    /// Why the run was stopped, if it was.
    pub stopped: Option<StopCause>,
}

// The backing store of levels.
fn into_store<B: Store>(levels: Levels<B>) -> B
    ensures { result ≡ levels.pages.store }
{
    levels.pages.into_store()
}

impl<B: Store> Parts<B> {
    /// What a run leaves whose levels ended so: the levels where it was not stopped, and else the store beneath them.
    pub fn new(entries: Entries<Entry>, levels: Levels<B>, stopped: Option<StopCause>) -> Parts<B>
        ensures entries { result.entries ≡ entries }
        ensures levels { result.levels ≡ levels_of_stop stopped levels }
        ensures store { result.store ≡ store_of_stop stopped levels.pages.store }
        ensures store_faults { result.store_faults ≡ B.faults levels.pages.store }
        ensures stopped { result.stopped ≡ stopped }
    {
        let store_faults = levels.pages.store_faults();
        let (levels, store) = match stopped {
            None => (Some(levels), None),
            Some(_cause) => (None, Some(into_store(levels))),
        };
        Parts {
            entries,
            levels,
            store,
            store_faults,
            stopped,
        }
    }
}
