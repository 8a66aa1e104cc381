// A mailbox.
ghost use Rattle.std.specs.Prelude.{◌≡◌, [], ◌∷◌, ◌++◌, length, drop, slice_get, OnOk, OnErr};
ghost use Rattle.psos_words.specs.Words.{word_at};

use psos_words::Word;
use std::alloc::{AllocError, Global};
use std::marker::Model;

/// A mailbox: its words, the first to be taken at the front. It is seen as their list.
#[derive(Drop)]
pub struct Mailbox {
    words: Vec<Word>,
}

impl Model for Mailbox {
    ghost use Rattle.std.specs.Prelude.{List};
    ghost use Rattle.psos_words.specs.declared.word.Word.{Word};

    ghost Value = { List Word };

    ghost view = { λ b. b.words.items };
}

impl Mailbox {
    /// No word. It takes no memory.
    pub fn new(alloc: Global) -> Mailbox
        ensures { result ≡ [] }
    {
        Mailbox {
            words: Vec::new(alloc),
        }
    }

    /// How many words wait in it.
    pub fn len(&self) -> usize
        ensures { result ≡ length self.now }
    {
        self.words.len()
    }

    /// The word that is to be taken first.
    pub fn first(&self) -> Option<Word>
        ensures { result ≡ slice_get self.now 0 }
    {
        self.words.first().copied()
    }

    /// Word i; past the end, data 0.
    pub fn word(&self, i: usize) -> Word
        ensures { result ≡ word_at self.now i }
    {
        match self.words.get(i) {
            Some(word) => *word,
            None => Word::Data(0),
        }
    }

    /// A word goes last into it. `Err` only where memory runs out: nothing is changed.
    pub fn post(&mut self, word: Word) -> Result<(), AllocError>
        ensures ok { OnOk result (self.new ≡ self.old ++ word ∷ []) }
        ensures err { OnErr result (self.new ≡ self.old) }
    {
        self.words.push(word)?;
        Ok(())
    }

    /// The first word goes, where there is one.
    pub fn draw(&mut self)
        ensures { self.new ≡ drop 1 self.old }
    {
        if !self.words.is_empty() {
            self.words.remove(0);
        }
    }
}
