// Level 7.
ghost use Rattle.std.specs.Prelude.{◌≡◌, ◌≤◌, ◌<◌, ◌/◌, None, true, false, replicate, length, IfOk, IfErr, OnErr, OnOk};
ghost use Rattle.psos_limits.specs.declared.TheConstants.{SLOTS, MOST_PAGE_FRAMES, LEAST_PAGE_FRAMES};
ghost use Rattle.psos_io.specs.Causes.{HasCause};
ghost use Rattle.psos_calls.specs.Levels.Answers.{with_any_page};
ghost use Rattle.psos_calls.specs.Levels.Level7.{Can7, IsTaken, act7, page_words, reads_page};
ghost use Rattle.psos_calls.specs.declared.level_call.LevelCall.TheVariants.{PageGet};
ghost use Rattle.psos_pages.specs.Frames.{IsResident, at_first, paged, calls_store};
ghost use Rattle.psos_pages.specs.Kept.{IsOne};
ghost use Rattle.psos_pages.specs.State.{ShowsWords, HoldsBlocks};

use crate::frames::Frames;
use psos_calls::{LevelAnswer, LevelCall, LevelFault, NoPage};
use psos_io::Store;
use psos_store::Slots;
use psos_words::{Page, Word};
use std::alloc::{AllocError, Global};
use std::marker::Model;

/// The pages of level 7, seen as their slots (docs/levels.md, "Pages and slots"), as frames and blocks (docs/levels.md,
/// "Frames"), and the backing store beneath them. It is plain data.
#[derive(Drop)]
pub struct Pages<B: Store> {
    pub(crate) taken: Slots,
    pub(crate) frames: Frames,
    pub(crate) store: B,
}

impl<B: Store> Model for Pages<B> {
    ghost use Rattle.psos_pages.specs.State.{PagesState, IsPaged, paging_of, slots_of};

    ghost Value = { PagesState B };

    ghost view = { λ p. record {
      slots = slots_of p.taken (paging_of p.frames (B.blocks p.store));
      paging = paging_of p.frames (B.blocks p.store);
      store = p.store;
    } };

    ghost invariant = { λ p. IsPaged p.taken p.frames (B.blocks p.store) };
}

impl<B: Store> Pages<B> {
    /// All slots free, over this store, with a number of frames from 8 to 256, all of them free. All memory is taken
    /// here, and no call of the store is made. `Err` only where memory runs out: the store goes.
    pub fn new(alloc: Global, frames: u16, store: B) -> Result<Pages<B>, AllocError>
        requires least { LEAST_PAGE_FRAMES ≤ frames }
        requires most { frames ≤ MOST_PAGE_FRAMES }
        ensures free { IfOk result (λ p. p.slots ≡ replicate SLOTS None) }
        ensures frames { IfOk result (λ p. p.paging ≡ at_first frames) }
        ensures store { IfOk result (λ p. p.store ≡ store) }
    {
        Ok(Pages {
            taken: Slots::new(alloc),
            frames: Frames::new(alloc, frames)?,
            store,
        })
    }

    /// How many calls of the store failed so far.
    pub fn store_faults(&self) -> u64
        ensures { result ≡ B.faults self.now.store }
    {
        self.store.faults()
    }

    /// The store as it is. It takes no memory.
    pub fn into_store(self) -> B
        ensures { result ≡ self.store }
    {
        let Pages {
            taken: _,
            frames: _,
            store,
        } = self;
        store
    }

    /// What always holds: there are at least eight frames, and the hand stands at one of them; a page lies in at most one;
    /// the words of a page of a taken slot are its frame's where it is resident, else its block's where it has one, else
    /// data 0; and the block of each page that has one reads as the words that the page has there.
    pub fn laws(&self)
        ensures some { 8 ≤ length self.now.paging.frames }
        ensures stands { self.now.paging.hand < length self.now.paging.frames }
        ensures one { IsOne self.now.paging.frames }
        ensures words { ShowsWords self.now.slots self.now.paging }
        ensures blocks { HoldsBlocks self.now.paging.blocks (B.blocks self.now.store) }
    {
        let _frames = &self.frames;
    }

    /// Makes the call that reads a page, whose slot is taken, but for the telling: the page is brought into a frame if it
    /// is in none, and the frame is marked used. Then `page` lends it. It takes no memory.
    ///
    /// `Err` as in `act`.
    pub fn bring(&mut self, page: u16) -> Result<(), LevelFault>
        requires { IsTaken self.old.slots (page / 8) }
        ensures slots { self.new.slots ≡ self.old.slots }
        ensures resident { OnOk result (IsResident self.new.paging page) }
        ensures fault { IfErr result (λ fault. fault ≡ LevelFault.Store) }
        ensures cause { HasCause (B.faults self.old.store) (B.faults self.new.store) result }
        ensures paging { OnOk result (self.new.paging ≡ paged self.old.paging (PageGet page)) }
        ensures untouched { calls_store self.old.paging (PageGet page) ≡ false → self.new.store ≡ self.old.store }
        ensures named { OnErr result (calls_store self.old.paging (PageGet page) ≡ true) }
        ensures count { length self.new.paging.frames ≡ length self.old.paging.frames }
    {
        let Ok(frame) = self.reach(page) else {
            return Err(LevelFault::Store);
        };
        self.frames.look(frame);
        Ok(())
    }

    /// The 64 words of a page, where they lie in its frame. The page is resident, and its slot is taken.
    pub fn page(&self, page: u16) -> &[Word]
        requires taken { IsTaken self.now.slots (page / 8) }
        requires resident { IsResident self.now.paging page }
        ensures words { result.now ≡ page_words self.now.slots page }
        ensures all { length result.now ≡ 64 }
    {
        let Some(frame) = self.frames.frame_of(page) else {
            unreachable!()
        };
        self.frames.page(frame as usize).words()
    }

    /// Makes a call of level 7 other than the one that reads a page (docs/levels.md, "Calls"): the slots and the answer
    /// after it are those of its definition, and the answer tells no page; frames, marks, hand and blocks are those of
    /// theirs (docs/levels.md, "Frames"). The call's condition holds; a call of another level does nothing and is
    /// answered with `Done`. It takes no memory: `_alloc` stands there since the calls of all levels have one form.
    ///
    /// `Err` only where a block is to be read or written and the store's count of faults rose in the call, and it is
    /// `Store`: the slots are unchanged, and each page has the words that it had. A call for which no block is to be read
    /// or written leaves the store as it is.
    pub fn answer(
        &mut self,
        _alloc: Global,
        call: &LevelCall,
    ) -> Result<LevelAnswer<NoPage>, LevelFault>
        requires can { Can7 self.old.slots call.now }
        requires no_page { reads_page call.now ≡ false }
        ensures done { IfOk result (λ answer. (self.new.slots, with_any_page answer) ≡ act7 self.old.slots call.now) }
        ensures fault { IfErr result (λ fault. fault ≡ LevelFault.Store) }
        ensures unchanged { OnErr result (self.new.slots ≡ self.old.slots) }
        ensures cause { HasCause (B.faults self.old.store) (B.faults self.new.store) result }
        ensures paging { OnOk result (self.new.paging ≡ paged self.old.paging call.now) }
        ensures untouched { calls_store self.old.paging call.now ≡ false → self.new.store ≡ self.old.store }
        ensures named { OnErr result (calls_store self.old.paging call.now ≡ true) }
        ensures count { length self.new.paging.frames ≡ length self.old.paging.frames }
    {
        match call {
            LevelCall::PageTake => Ok(LevelAnswer::Slot(self.take())),
            LevelCall::PageDrop { slot } => {
                self.free(*slot);
                Ok(LevelAnswer::Done)
            }
            LevelCall::WordGet { page, off } => match self.word(*page, *off) {
                Ok(word) => Ok(LevelAnswer::Got(word)),
                Err(fault) => Err(fault),
            },
            LevelCall::WordPut { page, off, word } => match self.put(*page, *off, *word) {
                Ok(()) => Ok(LevelAnswer::Done),
                Err(fault) => Err(fault),
            },
            LevelCall::FourPut { page, off, words } => match self.put_four(*page, *off, words) {
                Ok(()) => Ok(LevelAnswer::Done),
                Err(fault) => Err(fault),
            },
            _ => Ok(LevelAnswer::Done),
        }
    }

    /// Makes a call of level 7 (docs/levels.md, "Calls"), as `answer` does, and tells a page by value; `answer`, `bring` and
    /// `page` copy none. It takes no memory.
    ///
    /// `Err` as in `answer`.
    pub fn act(&mut self, alloc: Global, call: &LevelCall) -> Result<LevelAnswer, LevelFault>
        requires { Can7 self.old.slots call.now }
        ensures done { IfOk result (λ answer. (self.new.slots, answer) ≡ act7 self.old.slots call.now) }
        ensures fault { IfErr result (λ fault. fault ≡ LevelFault.Store) }
        ensures unchanged { OnErr result (self.new.slots ≡ self.old.slots) }
        ensures cause { HasCause (B.faults self.old.store) (B.faults self.new.store) result }
        ensures paging { OnOk result (self.new.paging ≡ paged self.old.paging call.now) }
        ensures untouched { calls_store self.old.paging call.now ≡ false → self.new.store ≡ self.old.store }
        ensures named { OnErr result (calls_store self.old.paging call.now ≡ true) }
        ensures count { length self.new.paging.frames ≡ length self.old.paging.frames }
    {
        if let LevelCall::PageGet { page } = *call {
            let Ok(()) = self.bring(page) else {
                return Err(LevelFault::Store);
            };
            let mut told = Page::zero();
            told.copy_from(self.page(page));
            return Ok(LevelAnswer::Whole(told));
        }
        match self.answer(alloc, call) {
            Ok(answer) => Ok(answer.with_any_page()),
            Err(fault) => Err(fault),
        }
    }
}
