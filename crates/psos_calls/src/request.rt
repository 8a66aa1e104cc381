// What users ask.
use psos_caps::Rights;
use psos_text::Name;

/// A request of a script. Registers are below 16, guards below 8, and a label is the number of a code block
/// (docs/requests.md).
#[derive(Clone, Copy)]
pub enum Request {
    /// A capability on a new identifier, with all rights, goes into `rd`.
    Mint {
        rd: u8,
    },
    /// The capability in `rs`, with no other rights than `keep` has, goes into `rd`.
    Restrict {
        rd: u8,
        rs: u8,
        keep: Rights,
    },
    /// The number `n` goes into `rd`.
    Set {
        rd: u8,
        n: u64,
    },
    /// The word in `rs` goes into `rd`.
    Move {
        rd: u8,
        rs: u8,
    },
    /// The sum of the numbers in `ra` and `rb` goes into `rd`.
    Add {
        rd: u8,
        ra: u8,
        rb: u8,
    },
    /// Word `n` of the segment or window in `rs` goes into `rd`.
    Read {
        rd: u8,
        rs: u8,
        n: u64,
    },
    /// The word in `rv` becomes word `n` of the segment or window in `rs`.
    Write {
        rs: u8,
        n: u64,
        rv: u8,
    },
    /// A new window over `len` words, from word `base` on, of the segment or window in `rs`; the capability on it goes
    /// into `rd`.
    Window {
        rd: u8,
        rs: u8,
        base: u64,
        len: u64,
    },
    /// The number of words of the segment or window in `rs` goes into `rd`.
    Length {
        rd: u8,
        rs: u8,
    },
    /// The capability under the name in the directory in `rs` goes into `rd`.
    Lookup {
        rd: u8,
        rs: u8,
        name: Name,
    },
    /// The capability in `rv` is entered under the name in the directory in `rs`.
    Bind {
        rs: u8,
        name: Name,
        rv: u8,
    },
    /// The plain entry under the name in the directory in `rs` goes.
    Unbind {
        rs: u8,
        name: Name,
    },
    /// The names of the directory in `rs` are told.
    List {
        rs: u8,
    },
    /// The object in `ro` is opened by its type in `rt`: the capability on its representation goes into `rd`.
    Impl {
        rd: u8,
        rt: u8,
        ro: u8,
    },
    /// A new segment of `len` words with this guard, told under the name in the directory in `rs`; the capability on it
    /// goes into `rd`.
    MkSeg {
        rd: u8,
        rs: u8,
        name: Name,
        len: u64,
        guard: u8,
    },
    /// The same with a new empty directory with this guard.
    MkDir {
        rd: u8,
        rs: u8,
        name: Name,
        guard: u8,
    },
    /// The same with a new type.
    MkType {
        rd: u8,
        rs: u8,
        name: Name,
    },
    /// The same with a new object of the type in `rt`, whose representation has `len` words.
    MkObj {
        rd: u8,
        rt: u8,
        rs: u8,
        name: Name,
        len: u64,
    },
    /// The same with a new procedure record: the code block with this label, and the word in `rl` as its linkage.
    MkCode {
        rd: u8,
        rs: u8,
        name: Name,
        label: u8,
        rl: u8,
    },
    /// What was made under the name in the directory in `rs` goes, with its distinguished entry.
    Delete {
        rs: u8,
        name: Name,
    },
    /// The word in `rv` goes last into the mailbox of the process in `rp`.
    Send {
        rp: u8,
        rv: u8,
    },
    /// The first word in the own mailbox goes into `rd`, and leaves the mailbox.
    Recv {
        rd: u8,
    },
    /// A body of the procedure record in `rp` is entered: its lines come next, over registers of their own.
    Call {
        rp: u8,
    },
    /// The directory in `rs` goes last into the own name space.
    Path {
        rs: u8,
    },
    /// The capability under the name, in the first directory of the name space that has it and may be looked up, goes
    /// into `rd`.
    Find {
        rd: u8,
        name: Name,
    },
}
