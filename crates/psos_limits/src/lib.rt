//! The limits of the system (docs/system.md, "Limits"). Code and definitions name them from here alone.
#![tactic(auto)]

/// Bytes of an input.
pub const MOST_INPUT: usize = 1_048_576;

/// Bytes of a line of a script.
pub const MOST_LINE_BYTES: usize = 200;

/// Users of a script.
pub const MOST_USERS: usize = 8;

/// Request and `phase` lines of one user.
pub const MOST_LINES: usize = 240;

/// Code blocks of a script.
pub const MOST_CODES: usize = 64;

/// Request lines of a code block.
pub const MOST_BODY: usize = 16;

/// Words of a segment.
pub const MOST_WORDS: usize = 512;

/// Live user objects.
pub const MOST_OBJECTS: usize = 512;

/// Live windows.
pub const MOST_WINDOWS: usize = 256;

/// Entries of a directory.
pub const MOST_ENTRIES: usize = 127;

/// Messages in a mailbox.
pub const MOST_MESSAGES: usize = 8;

/// Directories in a name space.
pub const MOST_PATH: usize = 4;

/// Open bodies of one user.
pub const MOST_FRAMES: usize = 4;

/// Requests of one user in a run, lines of bodies included.
pub const MOST_CHARGE: usize = 4096;

/// What one entered call adds to a user's charge.
pub const CALL_CHARGE: usize = 16;

/// Requests of all users in a run, lines of bodies included.
pub const MOST_REQUESTS: usize = 32_768;

/// Level calls of one request.
pub const MOST_CALLS: usize = 44;

/// Steps for which a trace has room.
pub const TRACE_ROOM: usize = 64;

/// Slots of pages: each segment and each representation has one.
pub const SLOTS: usize = 521;

/// Frames of pages that can be asked for, at least.
pub const LEAST_PAGE_FRAMES: u16 = 8;

/// Frames of pages that can be asked for, at most.
pub const MOST_PAGE_FRAMES: u16 = 256;
