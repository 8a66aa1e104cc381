// The frames.
ghost use Rattle.std.specs.Prelude.{◌≡◌, ◌≤◌, ◌<◌, false, true, Some, None, replicate, length, slice_set, slice_index_or, vec_capacity, IfOk, IfSome, IsNone, is_some, ◌↔◌};
ghost use Rattle.psos_words.specs.Words.{word_at, zeros};
ghost use Rattle.psos_words.specs.Block.{page_of};
ghost use Rattle.psos_calls.specs.Levels.Level7.{written};
ghost use Rattle.psos_pages.specs.Frames.{frame_at, at_frame, frame_of, free_frame, frame_words, next_frame, is_used, is_changed, unmarked, looked_at, put_in, put_at, four_at, new_frame, swept, without_page, page_in};
ghost use Rattle.psos_pages.specs.Kept.{IsHeld, IsReached, at_hand};
ghost use Rattle.psos_pages.specs.State.{read_from};

use crate::held::Held;
use psos_words::{Page, Word};
use std::alloc::{AllocError, Global};
use std::marker::Model;

/// The number of pages, each with its block.
pub const PAGES: usize = 4168;

/// The frames with their marks and the hand, and which pages have their block (docs/levels.md, "Frames").
#[derive(Drop)]
pub struct Frames {
    held: Vec<Option<Held>>,
    // The words of each frame that was ever filled.
    words: Vec<Page>,
    // The frame of each page that is resident.
    at: Vec<Option<u8>>,
    stored: Vec<bool>,
    hand: usize,
    // No frame below is free.
    first: usize,
}

impl Model for Frames {
    ghost use Rattle.std.specs.Prelude.{◌≤◌, vec_capacity, length};
    ghost use Rattle.psos_pages.specs.Kept.{FramesState, IsKept, frames_of};

    ghost Value = { FramesState };

    ghost view = { λ f. record { frames = frames_of f.held.items f.words.items; hand = f.hand; stored = f.stored.items } };

    ghost invariant = { λ f. (length f.held.items ≤ vec_capacity f.words) × IsKept f.held.items f.words.items f.at.items f.stored.items f.hand f.first };
}

impl Frames {
    /// So many frames, all of them free, and no page with a block. All memory is taken here, and that of the frames' words
    /// is not touched. `Err` only where memory runs out.
    pub fn new(alloc: Global, frames: u16) -> Result<Frames, AllocError>
        requires some { 1 ≤ frames }
        requires few { frames ≤ 256 }
        ensures frames { IfOk result (λ f. f.frames ≡ replicate frames None) }
        ensures hand { IfOk result (λ f. f.hand ≡ 0) }
        ensures stored { IfOk result (λ f. f.stored ≡ replicate 4168 false) }
    {
        let count = frames as usize;
        Ok(Frames {
            held: vec![in alloc; None; count]?,
            words: Vec::with_capacity(alloc, count)?,
            at: vec![in alloc; None; PAGES]?,
            stored: vec![in alloc; false; PAGES]?,
            hand: 0,
            first: 0,
        })
    }

    /// The frame of a page.
    pub fn frame_of(&self, page: u16) -> Option<u8>
        requires { page < 4168 }
        ensures { result ≡ frame_of self.now.frames page }
    {
        self.at[page as usize]
    }

    // The least free frame, or their number.
    fn least(&self) -> usize
        ensures { result ≡ free_frame self.now.frames }
    {
        let mut frame = self.first;
        'held: while frame < self.held.len() && self.held[frame].is_some() {
            frame += 1;
        }
        frame
    }

    /// The least free frame. None exactly where no frame is free.
    pub fn free(&mut self) -> Option<u8>
        ensures least { IfSome result (λ i. i ≡ free_frame self.old.frames) }
        ensures none { IsNone result ↔ (length self.old.frames ≤ free_frame self.old.frames) }
        ensures kept { self.new ≡ self.old }
    {
        let frame = self.least();
        self.first = frame;
        if frame == self.held.len() {
            return None;
        }
        Some(frame as u8)
    }

    // Whether the frame at the hand is marked used.
    fn is_used(&self) -> bool
        ensures { result ≡ is_used (at_hand self.now) }
    {
        match &self.held[self.hand] {
            Some(held) => held.used,
            None => false,
        }
    }

    // The frame that the hand looks at loses the mark used, and the hand moves on.
    fn pass(&mut self)
        requires { IsHeld self.old.frames self.old.hand }
        ensures frames { self.new.frames ≡ at_frame unmarked self.old.frames self.old.hand }
        ensures hand { self.new.hand ≡ next_frame (length self.old.frames) self.old.hand }
        ensures stored { self.new.stored ≡ self.old.stored }
    {
        let Some(held) = self.held[self.hand] else {
            unreachable!()
        };
        self.held[self.hand] = Some(Held {
            used: false,
            ..held
        });
        self.hand = next_frame(self.held.len(), self.hand);
    }

    /// The hand passes over frames that are marked used, and stands at the victim.
    pub fn sweep(&mut self)
        ensures swept { (self.new.frames, self.new.hand) ≡ swept (length self.old.frames) self.old.frames self.old.hand }
        ensures stored { self.new.stored ≡ self.old.stored }
    {
        let mut left = self.held.len();
        'looks: while left > 0 && self.is_used() {
            self.pass();
            left -= 1;
        }
    }

    /// A frame is accessed.
    pub fn look(&mut self, frame: u8)
        requires { IsHeld self.old.frames frame }
        ensures frames { self.new.frames ≡ at_frame looked_at self.old.frames frame }
        ensures hand { self.new.hand ≡ self.old.hand }
        ensures stored { self.new.stored ≡ self.old.stored }
    {
        let Some(held) = self.held[frame as usize] else {
            unreachable!()
        };
        self.held[frame as usize] = Some(Held { used: true, ..held });
    }

    /// A word of the page in a frame, which is accessed.
    pub fn word(&mut self, frame: u8, off: u8) -> Word
        requires there { IsHeld self.old.frames frame }
        requires within { off < 64 }
        ensures word { result ≡ word_at (frame_words (frame_at self.old.frames frame)) off }
        ensures frames { self.new.frames ≡ at_frame looked_at self.old.frames frame }
        ensures hand { self.new.hand ≡ self.old.hand }
        ensures stored { self.new.stored ≡ self.old.stored }
    {
        let word = self.words[frame as usize].get(off);
        self.look(frame);
        word
    }

    /// Changes a word of the page in a frame, which is accessed and changed.
    pub fn put(&mut self, frame: u8, off: u8, word: Word)
        requires there { IsHeld self.old.frames frame }
        requires within { off < 64 }
        ensures frames { self.new.frames ≡ at_frame (put_in (put_at off word)) self.old.frames frame }
        ensures hand { self.new.hand ≡ self.old.hand }
        ensures stored { self.new.stored ≡ self.old.stored }
    {
        let i = frame as usize;
        let Some(held) = self.held[i] else {
            unreachable!()
        };
        self.held[i] = Some(Held {
            page: held.page,
            used: true,
            changed: true,
        });
        self.words[i].put(off, word);
    }

    /// Changes four words of the page in a frame, which is accessed and changed.
    pub fn put_four(&mut self, frame: u8, off: u8, four: &[Word; 4])
        requires there { IsHeld self.old.frames frame }
        requires within { off ≤ 60 }
        ensures frames { self.new.frames ≡ at_frame (put_in (four_at off four.now)) self.old.frames frame }
        ensures hand { self.new.hand ≡ self.old.hand }
        ensures stored { self.new.stored ≡ self.old.stored }
    {
        let i = frame as usize;
        let Some(held) = self.held[i] else {
            unreachable!()
        };
        self.held[i] = Some(Held {
            page: held.page,
            used: true,
            changed: true,
        });
        put_words(&mut self.words[i], off, four);
    }

    /// Whether a page has its block.
    pub fn is_stored(&self, page: u16) -> bool
        requires { page < 4168 }
        ensures { result ≡ slice_index_or self.now.stored page false }
    {
        self.stored[page as usize]
    }

    /// A page has its block, or has none.
    pub fn set_stored(&mut self, page: u16, stored: bool)
        requires { page < 4168 }
        ensures frames { self.new.frames ≡ self.old.frames }
        ensures hand { self.new.hand ≡ self.old.hand }
        ensures stored { self.new.stored ≡ slice_set self.old.stored page stored }
    {
        self.stored[page as usize] = stored;
    }

    /// The page in the frame at the hand, where it was changed.
    pub fn victim(&self) -> Option<u16>
        ensures some { IfSome result (λ page. page ≡ page_in (at_hand self.now)) }
        ensures changed { is_some result ≡ is_changed (at_hand self.now) }
        ensures page { IfSome result (λ page. page < 4168) }
    {
        let Some(held) = self.held[self.hand] else {
            return None;
        };
        if !held.changed {
            return None;
        }
        Some(held.page)
    }

    /// The page in a frame.
    pub fn page(&self, frame: usize) -> &Page
        requires { IsHeld self.now.frames frame }
        ensures { result.now ≡ frame_words (frame_at self.now.frames frame) }
    {
        &self.words[frame]
    }

    /// The frame where the hand stands.
    pub fn hand(&self) -> usize
        ensures { result ≡ self.now.hand }
    {
        self.hand
    }

    // Frees a frame, in which this page lies.
    fn empty(&mut self, frame: usize, page: u16)
        requires { frame_of self.old.frames page ≡ Some frame }
        ensures frames { self.new.frames ≡ slice_set self.old.frames frame None }
        ensures hand { self.new.hand ≡ self.old.hand }
        ensures stored { self.new.stored ≡ self.old.stored }
    {
        self.held[frame] = None;
        self.at[page as usize] = None;
        self.first = self.first.min(frame);
    }

    /// Frees the frame at the hand, which moves on.
    pub fn evict(&mut self) -> u8
        requires { IsHeld self.old.frames self.old.hand }
        ensures frame { result ≡ self.old.hand }
        ensures frames { self.new.frames ≡ slice_set self.old.frames self.old.hand None }
        ensures hand { self.new.hand ≡ next_frame (length self.old.frames) self.old.hand }
        ensures stored { self.new.stored ≡ self.old.stored }
    {
        let hand = self.hand;
        let Some(held) = self.held[hand] else {
            unreachable!()
        };
        self.empty(hand, held.page);
        self.hand = next_frame(self.held.len(), hand);
        hand as u8
    }

    /// Makes a page zero: it has neither a frame nor a block.
    pub fn forget(&mut self, page: u16)
        requires { page < 4168 }
        ensures frames { self.new.frames ≡ without_page self.old.frames page }
        ensures hand { self.new.hand ≡ self.old.hand }
        ensures stored { self.new.stored ≡ slice_set self.old.stored page false }
    {
        self.set_stored(page, false);
        if let Some(frame) = self.at[page as usize] {
            self.empty(frame as usize, page);
        }
    }

    /// Puts a page into the least free frame, all its words data 0.
    #[inline(never)]
    pub fn fill_zero(&mut self, frame: u8, page: u16)
        requires free { frame ≡ free_frame self.old.frames }
        requires within { frame < length self.old.frames }
        requires page { page < 4168 }
        requires away { frame_of self.old.frames page ≡ None }
        ensures frames { self.new.frames ≡ slice_set self.old.frames frame (Some (new_frame page (zeros 64))) }
        ensures hand { self.new.hand ≡ self.old.hand }
        ensures stored { self.new.stored ≡ self.old.stored }
    {
        let i = frame as usize;
        reach(&mut self.words, i);
        self.words[i] = Page::zero();
        self.held[i] = Some(Held {
            page,
            used: true,
            changed: false,
        });
        self.at[page as usize] = Some(frame);
    }

    /// Puts a page into the least free frame, as it lies in its block. It is read into the frame's own words.
    pub fn fill_from(&mut self, frame: u8, page: u16, block: &[u8; 1032])
        requires free { frame ≡ free_frame self.old.frames }
        requires within { frame < length self.old.frames }
        requires page { page < 4168 }
        requires away { frame_of self.old.frames page ≡ None }
        requires is_page { is_some (page_of block.now) ≡ true }
        ensures frames { self.new.frames ≡ slice_set self.old.frames frame (Some (new_frame page (read_from block.now))) }
        ensures hand { self.new.hand ≡ self.old.hand }
        ensures stored { self.new.stored ≡ self.old.stored }
    {
        let i = frame as usize;
        reach(&mut self.words, i);
        let _is_page = self.words[i].read_block(block);
        self.held[i] = Some(Held {
            page,
            used: true,
            changed: false,
        });
        self.at[page as usize] = Some(frame);
    }
}

// Makes sure that a frame has words.
fn reach(words: &mut Vec<Page>, frame: usize)
    requires next { frame ≤ length words.old.items }
    requires room { frame < vec_capacity words.old }
    ensures there { frame < length words.new.items }
    ensures longer { IsReached words.old.items words.new.items }
    ensures room { vec_capacity words.new ≡ vec_capacity words.old }
{
    if frame < words.len() {
        return;
    }
    words.push_reserved(Page::zero());
}

// Writes four words over others.
fn put_words(page: &mut Page, off: u8, four: &[Word; 4])
    requires { off ≤ 60 }
    ensures { page.new ≡ written page.old off four.now }
{
    let [first, second, third, fourth] = *four;
    page.put(off, first);
    page.put(off + 1, second);
    page.put(off + 2, third);
    page.put(off + 3, fourth);
}

// Of so many frames, the one after this one, in a circle.
fn next_frame(count: usize, frame: usize) -> usize
    requires { frame < count }
    ensures next { result ≡ next_frame count frame }
    ensures within { result < count }
{
    if frame + 1 == count {
        return 0;
    }
    frame + 1
}
