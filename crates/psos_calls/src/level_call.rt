// What a plan asks of the levels.
ghost use Rattle.std.specs.Prelude.{◌≡◌};
ghost use Rattle.std.specs.Prelude.{option_map};
ghost use Rattle.psos_calls.specs.Plan.Kept.{kept_at};

use crate::kept_call::KeptCall;
use crate::{Kind, Right};
use psos_caps::{Cap, Rights, Uid};
use psos_words::Word;

/// A call of one level's function (docs/levels.md, "Calls"). `F` says how the words of `FourPut` are told, and `W` how
/// the word of `Locate` is: as they are, or, in a `KeptCall`, by where they lie among others.
#[derive(Clone, Copy)]
pub enum LevelCall<F = [Word; 4], W = Option<Word>> {
    // Level 13
    /// Nothing is asked; the level is held from here on.
    Hold13,
    /// Whether guard 1 lets the word in.
    Admit {
        word: Word,
    },
    /// A new procedure record, with the number of its code block and its linkage.
    CodeMake {
        uid: Uid,
        label: u8,
        link: Word,
    },
    /// The label and the linkage of the procedure record that the capability names, by its right enter.
    Enter {
        cap: Cap,
    },
    /// The procedure record goes.
    CodeGone {
        uid: Uid,
    },
    // Level 12
    /// The word goes last into the mailbox of the process that the capability names, by its right send.
    Post {
        to: Cap,
        word: Word,
    },
    /// The first message of the mailbox leaves it.
    Draw {
        uid: Uid,
    },
    // Level 11
    /// Nothing is asked; the level is held from here on.
    Hold11,
    /// Whether one more user object fits.
    Room,
    /// A new user object is told, with its kind.
    Enrol {
        uid: Uid,
        kind: Kind,
    },
    /// The kind of a user object.
    KindOf {
        uid: Uid,
    },
    /// The user object is told no more.
    Forget {
        uid: Uid,
    },
    // Level 10
    /// The guard of the directory that the capability names, by the right.
    DirAt {
        cap: Cap,
        right: Right,
    },
    /// A new directory, with its guard.
    DirMake {
        uid: Uid,
        guard: Rights,
    },
    /// The directory goes.
    DirGone {
        uid: Uid,
    },
    // Level 9
    /// The identifier of the representation of an object or a directory.
    RepOf {
        uid: Uid,
    },
    /// Whether the capability names a live type, and has the right make.
    TypeAt {
        cap: Cap,
    },
    /// A new type.
    TypeMake {
        uid: Uid,
    },
    /// A new object of a type, or a new directory without one, with the capability on its representation.
    ObjMake {
        uid: Uid,
        of: Option<Uid>,
        rep: Cap,
    },
    /// The capability on the representation of the object `on`, by the right impl on its type `of`.
    Impl {
        of: Cap,
        on: Cap,
    },
    /// The object or the directory goes; its representation is told.
    ObjGone {
        uid: Uid,
    },
    /// The type goes, where no live object has it.
    TypeGone {
        uid: Uid,
    },
    // Level 8
    /// Where word `off` of the segment or window lies, by the right `need`, where the guard lets the word in, if one is
    /// given.
    Locate {
        cap: Cap,
        off: u64,
        need: Right,
        word: W,
    },
    /// The slot of a segment.
    SlotOf {
        uid: Uid,
    },
    /// A new segment of `len` words in a slot, with its guard.
    SegMake {
        uid: Uid,
        slot: u16,
        len: u16,
        guard: Rights,
    },
    /// The segment goes with the windows over it; its slot is told.
    SegGone {
        uid: Uid,
    },
    /// Whether a window over these words may be made: by the right window, within the length, and where one more fits.
    WinRoom {
        cap: Cap,
        base: u64,
        len: u64,
    },
    /// A new window over these words.
    WinMake {
        uid: Uid,
        cap: Cap,
        base: u64,
        len: u64,
    },
    /// How many words the segment or window has, by the right read.
    Length {
        cap: Cap,
    },
    // Level 7
    /// The least free slot is taken, and all its words are data 0.
    PageTake,
    /// The slot is free.
    PageDrop {
        slot: u16,
    },
    /// Word `off` of the page.
    WordGet {
        page: u16,
        off: u8,
    },
    /// Word `off` of the page is changed.
    WordPut {
        page: u16,
        off: u8,
        word: Word,
    },
    /// All words of the page.
    PageGet {
        page: u16,
    },
    /// The four words from `off` on of the page are changed.
    FourPut {
        page: u16,
        off: u8,
        words: F,
    },
    // Level 0
    /// A capability on the next identifier, with all rights; the next rises by one.
    Fresh,
}

impl LevelCall {
    /// The same call, with its words told to lie from this place on.
    pub(crate) fn kept_at(&self, at: u8) -> KeptCall
        ensures { result ≡ kept_at at self.now }
    {
        match *self {
            LevelCall::Hold13 => LevelCall::Hold13,
            LevelCall::Admit { word } => LevelCall::Admit { word },
            LevelCall::CodeMake { uid, label, link } => LevelCall::CodeMake { uid, label, link },
            LevelCall::Enter { cap } => LevelCall::Enter { cap },
            LevelCall::CodeGone { uid } => LevelCall::CodeGone { uid },
            LevelCall::Post { to, word } => LevelCall::Post { to, word },
            LevelCall::Draw { uid } => LevelCall::Draw { uid },
            LevelCall::Hold11 => LevelCall::Hold11,
            LevelCall::Room => LevelCall::Room,
            LevelCall::Enrol { uid, kind } => LevelCall::Enrol { uid, kind },
            LevelCall::KindOf { uid } => LevelCall::KindOf { uid },
            LevelCall::Forget { uid } => LevelCall::Forget { uid },
            LevelCall::DirAt { cap, right } => LevelCall::DirAt { cap, right },
            LevelCall::DirMake { uid, guard } => LevelCall::DirMake { uid, guard },
            LevelCall::DirGone { uid } => LevelCall::DirGone { uid },
            LevelCall::RepOf { uid } => LevelCall::RepOf { uid },
            LevelCall::TypeAt { cap } => LevelCall::TypeAt { cap },
            LevelCall::TypeMake { uid } => LevelCall::TypeMake { uid },
            LevelCall::ObjMake { uid, of, rep } => LevelCall::ObjMake { uid, of, rep },
            LevelCall::Impl { of, on } => LevelCall::Impl { of, on },
            LevelCall::ObjGone { uid } => LevelCall::ObjGone { uid },
            LevelCall::TypeGone { uid } => LevelCall::TypeGone { uid },
            LevelCall::Locate {
                cap,
                off,
                need,
                word,
            } => LevelCall::Locate {
                cap,
                off,
                need,
                word: place_of(word, at),
            },
            LevelCall::SlotOf { uid } => LevelCall::SlotOf { uid },
            LevelCall::SegMake {
                uid,
                slot,
                len,
                guard,
            } => LevelCall::SegMake {
                uid,
                slot,
                len,
                guard,
            },
            LevelCall::SegGone { uid } => LevelCall::SegGone { uid },
            LevelCall::WinRoom { cap, base, len } => LevelCall::WinRoom { cap, base, len },
            LevelCall::WinMake {
                uid,
                cap,
                base,
                len,
            } => LevelCall::WinMake {
                uid,
                cap,
                base,
                len,
            },
            LevelCall::Length { cap } => LevelCall::Length { cap },
            LevelCall::PageTake => LevelCall::PageTake,
            LevelCall::PageDrop { slot } => LevelCall::PageDrop { slot },
            LevelCall::WordGet { page, off } => LevelCall::WordGet { page, off },
            LevelCall::WordPut { page, off, word } => LevelCall::WordPut { page, off, word },
            LevelCall::PageGet { page } => LevelCall::PageGet { page },
            LevelCall::FourPut { page, off, .. } => LevelCall::FourPut {
                page,
                off,
                words: at,
            },
            LevelCall::Fresh => LevelCall::Fresh,
        }
    }
}

// Where a word lies, if there is one.
fn place_of(word: Option<Word>, at: u8) -> Option<u8>
    ensures { result ≡ option_map (λ _. at) word }
{
    match word {
        Some(_) => Some(at),
        None => None,
    }
}
