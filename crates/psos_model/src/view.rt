// The words that an identifier leads to.
use psos_caps::Rights;

/// The words that a live segment or window leads to: the segment, where they begin in it, how many, and its guard.
#[derive(Clone, Copy)]
pub struct FlatView {
    pub seg: u64,
    pub base: u64,
    pub len: u64,
    pub guard: Rights,
}
