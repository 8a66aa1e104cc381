// A page of words.
ghost use Rattle.std.specs.Prelude.{◌≡◌, ◌<◌, length, slice_set, slice_get, Some, IsTrue, is_some};
ghost use Rattle.psos_words.specs.Block.{block_of, page_of};
ghost use Rattle.psos_words.specs.Words.{zeros};

use crate::Word;
use crate::block::{read_words, write_words};
use std::marker::Model;

/// Sixty-four words, seen as their list.
#[derive(Drop)]
pub struct Page {
    words: [Word; 64],
}

impl Model for Page {
    ghost use Rattle.std.specs.Prelude.{List, ◌≡◌, length};
    ghost use Rattle.psos_words.specs.declared.word.Word.{Word};

    ghost Value = { List Word };

    ghost view = { λ p. p.words };

    ghost invariant = { λ p. length p.words ≡ 64 };
}

impl Page {
    /// All words data 0.
    pub fn zero() -> Page
        ensures { result ≡ zeros 64 }
    {
        Page {
            words: [Word::Data(0); 64],
        }
    }

    /// Becomes a page of these 64 words.
    pub fn copy_from(&mut self, words: &[Word])
        requires { length words.now ≡ 64 }
        ensures { self.new ≡ words.now }
    {
        self.words.copy_from_slice(words);
    }

    /// Word i.
    pub fn get(&self, i: u8) -> Word
        requires { i < 64 }
        ensures word { slice_get self.now i ≡ Some result }
        ensures all { length self.now ≡ 64 }
    {
        self.words[i as usize]
    }

    /// Puts a word at i, its tag included, and changes no other word.
    pub fn put(&mut self, i: u8, w: Word)
        requires { i < 64 }
        ensures words { self.new ≡ slice_set self.old i w }
        ensures all { length self.old ≡ 64 }
    {
        self.words[i as usize] = w;
    }

    /// All words, in order.
    pub fn words(&self) -> &[Word]
        ensures words { result.now ≡ self.now }
        ensures all { length result.now ≡ 64 }
    {
        &self.words
    }

    /// Writes the block of the page (docs/system.md, "Words in blocks and directories"), which is read back as the page.
    pub fn to_block(&self, out: &mut [u8; 1032])
        ensures block { out.new ≡ block_of self.now }
        ensures again { page_of out.new ≡ Some self.now }
    {
        write_words(&self.words, out);
    }

    /// Becomes the page of a block, and tells whether the block is one. Where it is not, all words may have changed.
    pub fn read_block(&mut self, block: &[u8; 1032]) -> bool
        ensures page { result ≡ is_some (page_of block.now) }
        ensures words { IsTrue result → page_of block.now ≡ Some self.new }
    {
        read_words(block, &mut self.words)
    }

    /// The page of a block. None exactly where the number of a word with a tag is 2^80 or more, or that of another word
    /// is 2^64 or more.
    pub fn from_block(block: &[u8; 1032]) -> Option<Page>
        ensures { result ≡ page_of block.now }
    {
        let mut page = Page::zero();
        if !page.read_block(block) {
            return None;
        }
        Some(page)
    }
}
