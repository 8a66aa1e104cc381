// Entries of directories.
use psos_caps::Cap;
use psos_text::Name;

/// An entry of a directory (docs/system.md, "Words in blocks and directories").
#[derive(Clone, Copy, PartialEq, Eq, Debug)]
pub struct DirEntry {
    pub name: Name,
    pub cap: Cap,
    /// Whether it is a distinguished entry.
    pub kept: bool,
}
