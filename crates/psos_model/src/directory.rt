// A directory.
use crate::NamesTable;
use psos_caps::Rights;

/// A directory: its guard, the identifier of its representation, and its entries by name.
#[derive(Drop)]
pub struct Directory {
    pub guard: Rights,
    pub rep: u64,
    pub names: NamesTable,
}
