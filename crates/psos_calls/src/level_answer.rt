// What the levels answer.
ghost use Rattle.std.specs.Prelude.{◌≡◌};
ghost use Rattle.psos_calls.specs.Levels.Answers.{with_any_page};

use crate::{Kind, NoPage, Refusal};
use psos_caps::{Cap, Rights, Uid};
use psos_words::{Page, Word};

/// What a level's function answers (docs/levels.md, "Calls"). `P` says how a page is told: by its words, as a `Page`;
/// by where it lies in a trace, as a `Sheet`; or not at all, as `NoPage`, where the answer is none of a page and takes no
/// room for one.
#[derive(Clone, Copy)]
pub enum LevelAnswer<P = Page> {
    /// The call was made; there is nothing to tell.
    Done,
    /// The label of a procedure record, and its linkage.
    Entered { label: u8, link: Word },
    /// A word: a message, a word of a page, or the capability on a representation.
    Got(Word),
    /// The kind of a user object.
    Is(Kind),
    /// The guard of a directory.
    Guard(Rights),
    /// The identifier of a representation.
    Rep(Uid),
    /// The page and the place on it where a word lies.
    At { page: u16, off: u8 },
    /// A slot of eight pages.
    Slot(u16),
    /// A number of words.
    Len(u64),
    /// All words of a page.
    Whole(P),
    /// A capability on a new identifier.
    New(Cap),
    /// Nothing was changed.
    No(Refusal),
}

impl LevelAnswer<NoPage> {
    /// The same answer among those that may tell a page.
    pub fn with_any_page<P>(self) -> LevelAnswer<P>
        ensures { result ≡ with_any_page self }
    {
        match self {
            LevelAnswer::Done => LevelAnswer::Done,
            LevelAnswer::Entered { label, link } => LevelAnswer::Entered { label, link },
            LevelAnswer::Got(word) => LevelAnswer::Got(word),
            LevelAnswer::Is(kind) => LevelAnswer::Is(kind),
            LevelAnswer::Guard(guard) => LevelAnswer::Guard(guard),
            LevelAnswer::Rep(uid) => LevelAnswer::Rep(uid),
            LevelAnswer::At { page, off } => LevelAnswer::At { page, off },
            LevelAnswer::Slot(slot) => LevelAnswer::Slot(slot),
            LevelAnswer::Len(n) => LevelAnswer::Len(n),
            LevelAnswer::Whole(page) => match page {},
            LevelAnswer::New(cap) => LevelAnswer::New(cap),
            LevelAnswer::No(refusal) => LevelAnswer::No(refusal),
        }
    }
}
