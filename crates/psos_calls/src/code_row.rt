// A procedure record.
use psos_words::Word;

/// A procedure record: its code block's number, and its linkage.
#[derive(Clone, Copy)]
pub struct CodeRow {
    pub label: u8,
    pub link: Word,
}
