// A live segment, as level 8 keeps it.
use psos_caps::Rights;

/// A live segment: its slot of pages, its length in words, and its guard.
#[derive(Clone, Copy)]
pub struct SegRow {
    pub slot: u16,
    pub len: u16,
    pub guard: Rights,
}
