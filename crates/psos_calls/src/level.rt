// The levels.

/// The levels, in the falling order in which a request takes them (docs/levels.md).
#[derive(Clone, Copy)]
pub enum Level {
    /// Procedure records.
    L13,
    /// Processes and their mailboxes.
    L12,
    /// User objects.
    L11,
    /// Directories.
    L10,
    /// Extended types.
    L9,
    /// Segments and windows.
    L8,
    /// Pages.
    L7,
    /// Capabilities.
    L0,
}
