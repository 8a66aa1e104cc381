// How a command ended.
use psos_calls::Entry;
use psos_core::Levels;
use psos_io::Store;
use psos_journal::Entries;

/// How a command ended (docs/program.md, "Statuses").
#[derive(Drop)]
pub struct Outcome<B: Store> {
    /// 0 to 6; the program ends with it.
    pub status: u8,
    /// The entries of the requests that closed, in their one order. Under 1, 2 and 3 there are none, and under 6 where no
    /// run was opened.
    pub entries: Entries<Entry>,
    /// The levels as the run left them: always under 0 and 4, under 6 where the run was whole, and never under the others.
    pub levels: Option<Levels<B>>,
    /// The store as the run left it, where a run was opened and the levels are not given: always under 5.
    pub store: Option<B>,
    /// How many calls of the store had failed at the end.
    pub store_faults: u64,
}
