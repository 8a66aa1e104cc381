// Changes of rows in their places, which take no memory.
ghost use Rattle.std.specs.Prelude.{slice_set, drop};
ghost use Rattle.psos_calls.specs.Language.Views.{is_not_over};
ghost use Rattle.psos_model.specs.Flat.Changes.{without_entry};

use crate::{Directory, Mailbox, Segment};
use psos_calls::WinRow;
use psos_table::{Change, Test};
use psos_text::Name;
use psos_words::Word;

/// A word of a segment is replaced.
#[derive(Drop)]
pub(crate) struct WordPut {
    pub i: u16,
    pub word: Word,
}

impl Change<Segment> for WordPut {
    ghost change = { λ e s. record s { words = slice_set s.words e.i e.word } };

    fn apply(&self, row: &mut Segment) {
        row.put(self.i as usize, self.word);
    }
}

/// An entry of a directory goes.
#[derive(Drop)]
pub(crate) struct EntryGone {
    pub name: Name,
}

impl Change<Directory> for EntryGone {
    ghost change = { λ e d. without_entry e.name d };

    fn apply(&self, row: &mut Directory) {
        row.names.remove(&self.name);
    }
}

/// The first word of a mailbox goes.
#[derive(Drop)]
pub(crate) struct FirstGone {}

impl Change<Mailbox> for FirstGone {
    ghost change = { λ e box. drop 1 box };

    fn apply(&self, row: &mut Mailbox) {
        row.draw();
    }
}

/// The windows that are not over a segment.
#[derive(Drop)]
pub(crate) struct NotOver {
    pub uid: u64,
}

impl Test<WinRow> for NotOver {
    ghost test = { λ t w. is_not_over t.uid w };

    fn passes(&self, row: &WinRow) -> bool {
        row.seg.0 != self.uid
    }
}
