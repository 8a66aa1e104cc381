// What a search finds.
use psos_caps::Cap;

/// The entry of a name, and the number of its slot.
#[derive(Clone, Copy, PartialEq, Eq, Debug)]
pub struct Found {
    pub cap: Cap,
    /// Counted from 0.
    pub slot: u8,
    /// Whether it is a distinguished entry.
    pub kept: bool,
}
