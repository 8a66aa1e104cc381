// Changes of what users share.
use crate::Object;
use psos_calls::{CodeRow, Kind, WinRow};
use psos_caps::{Cap, Rights};
use psos_text::Name;
use psos_words::Word;

/// A change of what users share. Each keeps each rule of sound states by itself (docs/requests.md, "Answers").
#[derive(Clone, Copy)]
pub enum Change {
    /// An identifier is used up.
    Fresh,
    /// A word of a segment is replaced.
    PutWord {
        uid: u64,
        i: u16,
        word: Word,
    },
    /// A plain entry comes.
    Bind {
        dir: u64,
        name: Name,
        cap: Cap,
    },
    /// A plain entry goes.
    Unbind {
        dir: u64,
        name: Name,
    },
    /// A user object of a kind is told of, with its distinguished entry in a directory.
    Register {
        uid: u64,
        dir: u64,
        name: Name,
        kind: Kind,
    },
    /// A user object is told of no more, and its entry goes.
    Unregister {
        uid: u64,
        dir: u64,
        name: Name,
    },
    /// A word goes last into a mailbox.
    Post {
        uid: u64,
        word: Word,
    },
    /// The first word of a mailbox goes.
    Draw {
        uid: u64,
    },
    /// A segment of so many words is made.
    MakeSegment {
        uid: u64,
        len: u64,
        guard: Rights,
    },
    /// A window is made.
    MakeWindow {
        uid: u64,
        row: WinRow,
    },
    /// A type is made.
    MakeType {
        uid: u64,
    },
    /// An object is made, with its representation of so many words.
    MakeObject {
        uid: u64,
        object: Object,
        len: u64,
    },
    /// A directory is made.
    MakeDirectory {
        uid: u64,
        rep: u64,
        guard: Rights,
    },
    /// A procedure record is made.
    MakeCode {
        uid: u64,
        row: CodeRow,
    },
    /// A segment goes, with its windows.
    DropSegment {
        uid: u64,
    },
    /// A type goes.
    DropType {
        uid: u64,
    },
    /// An object goes, with its representation and that one's windows.
    DropObject {
        uid: u64,
        rep: u64,
    },
    /// A directory goes.
    DropDirectory {
        uid: u64,
    },
    /// A procedure record goes.
    DropCode {
        uid: u64,
    },
}

impl Default for Change {
    fn default() -> Change {
        Change::Fresh
    }
}
