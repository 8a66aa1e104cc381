// The pages that were answered to an open request.
ghost use Rattle.std.specs.Prelude.{◌≡◌, ◌<◌, [], ◌∷◌, ◌++◌, length, IfOk};
ghost use Rattle.psos_limits.specs.declared.TheConstants.{TRACE_ROOM};

use psos_limits::TRACE_ROOM;
use psos_words::{Page, Word};
use std::alloc::{AllocError, Global};
use std::marker::Model;

/// The pages that the calls of an open request were answered with, in order: at most 64. It is seen as their list. Room
/// for all is taken when it is made, and a place is touched when a page is first kept there.
#[derive(Drop)]
pub(crate) struct KeptPages {
    // The pages of this request, and behind them those that an earlier one left.
    pages: Vec<Page>,
    // How many are of this request.
    len: usize,
}

impl Model for KeptPages {
    ghost use Rattle.std.specs.Prelude.{◌≤◌, List, length, take, vec_capacity};
    ghost use Rattle.psos_limits.specs.declared.TheConstants.{TRACE_ROOM};
    ghost use Rattle.psos_words.specs.declared.word.Word.{Word};

    ghost Value = { List (List Word) };

    ghost view = { λ k. take k.len k.pages.items };

    ghost invariant = { λ k. (TRACE_ROOM ≤ vec_capacity k.pages) × (k.len ≤ length k.pages.items) × (length k.pages.items ≤ TRACE_ROOM) };
}

impl KeptPages {
    /// No page. `Err` only where memory runs out.
    pub fn new(alloc: Global) -> Result<KeptPages, AllocError>
        ensures { IfOk result (λ k. k ≡ []) }
    {
        Ok(KeptPages {
            pages: Vec::with_capacity(alloc, TRACE_ROOM)?,
            len: 0,
        })
    }

    /// One more page at the end, of these 64 words. There is room for 64. It takes no memory.
    pub fn push(&mut self, words: &[Word])
        requires room { length self.old < TRACE_ROOM }
        requires words { length words.now ≡ 64 }
        ensures { self.new ≡ self.old ++ words.now ∷ [] }
    {
        if self.len == self.pages.len() {
            self.pages.push_reserved(Page::zero());
        }
        self.pages[self.len].copy_from(words);
        self.len += 1;
    }

    /// How many pages there are.
    pub fn len(&self) -> usize
        ensures { result ≡ length self.now }
    {
        self.len
    }

    /// All of them, in order.
    pub fn as_slice(&self) -> &[Page]
        ensures { result.now ≡ self.now }
    {
        &self.pages[..self.len]
    }

    /// Forgets all of them. It takes no memory.
    pub fn clear(&mut self)
        ensures { self.new ≡ [] }
    {
        self.len = 0;
    }
}
