// Words of pages in frames, read and written.
ghost use Rattle.std.specs.Prelude.{◌≡◌, ◌≤◌, ◌<◌, ◌/◌, true, false, length, slice_set, IfOk, IfErr, OnErr, OnOk};
ghost use Rattle.psos_io.specs.Causes.{HasCause};
ghost use Rattle.psos_words.specs.Words.{word_at};
ghost use Rattle.psos_calls.specs.Levels.Level7.{IsTaken, around, place_in_slot, with_words, written};
ghost use Rattle.psos_pages.specs.Frames.{needs_store, brought, accessed, looked_at, put_in, put_at, four_at};

use crate::Pages;
use psos_calls::LevelFault;
use psos_io::Store;
use psos_words::Word;

impl<B: Store> Pages<B> {
    /// A word of a page.
    pub(crate) fn word(&mut self, page: u16, off: u8) -> Result<Word, LevelFault>
        requires taken { IsTaken self.old.slots (page / 8) }
        requires within { off < 64 }
        ensures word { IfOk result (λ w. w ≡ word_at (around self.old.slots page) (place_in_slot page off)) }
        ensures slots { self.new.slots ≡ self.old.slots }
        ensures paging { OnOk result (self.new.paging ≡ accessed looked_at (brought self.old.paging page)) }
        ensures untouched { needs_store self.old.paging page ≡ false → self.new.store ≡ self.old.store }
        ensures named { OnErr result (needs_store self.old.paging page ≡ true) }
        ensures count { length self.new.paging.frames ≡ length self.old.paging.frames }
        ensures fault { IfErr result (λ fault. fault ≡ LevelFault.Store) }
        ensures cause { HasCause (B.faults self.old.store) (B.faults self.new.store) result }
    {
        let Ok(frame) = self.reach(page) else {
            return Err(LevelFault::Store);
        };
        Ok(self.frames.word(frame, off))
    }

    /// Changes a word of a page.
    pub(crate) fn put(&mut self, page: u16, off: u8, word: Word) -> Result<(), LevelFault>
        requires taken { IsTaken self.old.slots (page / 8) }
        requires within { off < 64 }
        ensures slots { OnOk result (self.new.slots ≡ with_words self.old.slots page (slice_set (around self.old.slots page) (place_in_slot page off) word)) }
        ensures kept { OnErr result (self.new.slots ≡ self.old.slots) }
        ensures paging { OnOk result (self.new.paging ≡ accessed (put_in (put_at off word)) (brought self.old.paging page)) }
        ensures untouched { needs_store self.old.paging page ≡ false → self.new.store ≡ self.old.store }
        ensures named { OnErr result (needs_store self.old.paging page ≡ true) }
        ensures count { length self.new.paging.frames ≡ length self.old.paging.frames }
        ensures fault { IfErr result (λ fault. fault ≡ LevelFault.Store) }
        ensures cause { HasCause (B.faults self.old.store) (B.faults self.new.store) result }
    {
        let Ok(frame) = self.reach(page) else {
            return Err(LevelFault::Store);
        };
        self.frames.put(frame, off, word);
        Ok(())
    }

    /// Changes four words of a page.
    pub(crate) fn put_four(
        &mut self,
        page: u16,
        off: u8,
        four: &[Word; 4],
    ) -> Result<(), LevelFault>
        requires taken { IsTaken self.old.slots (page / 8) }
        requires within { off ≤ 60 }
        ensures slots { OnOk result (self.new.slots ≡ with_words self.old.slots page (written (around self.old.slots page) (place_in_slot page off) four.now)) }
        ensures kept { OnErr result (self.new.slots ≡ self.old.slots) }
        ensures paging { OnOk result (self.new.paging ≡ accessed (put_in (four_at off four.now)) (brought self.old.paging page)) }
        ensures untouched { needs_store self.old.paging page ≡ false → self.new.store ≡ self.old.store }
        ensures named { OnErr result (needs_store self.old.paging page ≡ true) }
        ensures count { length self.new.paging.frames ≡ length self.old.paging.frames }
        ensures fault { IfErr result (λ fault. fault ≡ LevelFault.Store) }
        ensures cause { HasCause (B.faults self.old.store) (B.faults self.new.store) result }
    {
        let Ok(frame) = self.reach(page) else {
            return Err(LevelFault::Store);
        };
        self.frames.put_four(frame, off, four);
        Ok(())
    }
}
