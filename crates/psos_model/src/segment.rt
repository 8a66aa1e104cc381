// A segment.
ghost use Rattle.std.specs.Prelude.{◌≡◌, length, slice_set, IfOk};
ghost use Rattle.psos_words.specs.Words.{word_at};
ghost use Rattle.psos_model.specs.Flat.Changes.{new_segment};

use psos_caps::Rights;
use psos_words::Word;
use std::alloc::{AllocError, Global};
use std::marker::Model;

/// A segment: its words and its guard, seen as these.
#[derive(Drop)]
pub struct Segment {
    words: Vec<Word>,
    guard: Rights,
}

impl Model for Segment {
    ghost use Rattle.psos_model.specs.Flat.Rows.{Segment};

    ghost Value = { Segment };

    ghost view = { λ s. record { words = s.words.items; guard = s.guard } };
}

impl Segment {
    /// So many words of data 0.
    pub fn new(alloc: Global, len: usize, guard: Rights) -> Result<Segment, AllocError>
        ensures { IfOk result (λ s. s ≡ new_segment len guard) }
    {
        let mut words = Vec::new(alloc);
        words.resize(len, Word::Data(0))?;
        Ok(Segment { words, guard })
    }

    /// How many words it has.
    pub fn len(&self) -> usize
        ensures { result ≡ length self.now.words }
    {
        self.words.len()
    }

    /// Its guard.
    pub fn guard(&self) -> Rights
        ensures { result ≡ self.now.guard }
    {
        self.guard
    }

    /// Word i; past the end, data 0.
    pub fn word(&self, i: usize) -> Word
        ensures { result ≡ word_at self.now.words i }
    {
        match self.words.get(i) {
            Some(word) => *word,
            None => Word::Data(0),
        }
    }

    /// Puts a word at i, where there is one, and changes no other.
    pub fn put(&mut self, i: usize, word: Word)
        ensures { self.new ≡ record self.old { words = slice_set self.old.words i word } }
    {
        if i < self.words.len() {
            self.words[i] = word;
        }
    }
}
