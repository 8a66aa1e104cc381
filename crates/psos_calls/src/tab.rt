// Tables that can be full.

/// What has a limit.
#[derive(Clone, Copy)]
pub enum Tab {
    /// User objects: 512 in all.
    Objects,
    /// Windows: 256 in all.
    Windows,
    /// Entries: 127 a directory.
    Entries,
    /// Messages: 8 a mailbox.
    Mailbox,
    /// Directories of a name space: 4.
    Path,
    /// Open bodies: 4 a user.
    Frames,
    /// The charge of a user: 4,096.
    Requests,
}
