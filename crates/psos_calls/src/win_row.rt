// A live window.
use psos_caps::Uid;

/// A live window: its segment, where it begins in it, and its length in words.
#[derive(Clone, Copy)]
pub struct WinRow {
    pub seg: Uid,
    pub base: u16,
    pub len: u16,
}
