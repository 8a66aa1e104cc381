// Pages that are brought into frames.
ghost use Rattle.std.specs.Prelude.{◌≡◌, ◌<◌, ◌/◌, ◌||◌, Some, None, true, false, length, IfOk, IfErr, OnErr, OnOk};
ghost use Rattle.psos_io.specs.Causes.{HasCause};
ghost use Rattle.psos_calls.specs.Levels.Level7.{IsTaken};
ghost use Rattle.psos_pages.specs.Frames.{frame_of, free_frame, with_room, writes, reads, needs_store, fetched, brought};

use crate::Pages;
use crate::blocks::{load, save};
use psos_calls::LevelFault;
use psos_io::Store;

impl<B: Store> Pages<B> {
    // A free frame: the least, or that of the victim.
    #[inline(never)]
    fn room(&mut self) -> Result<u8, LevelFault>
        ensures slots { self.new.slots ≡ self.old.slots }
        ensures paging { OnOk result (self.new.paging ≡ with_room self.old.paging) }
        ensures frame { IfOk result (λ i. i ≡ free_frame self.new.paging.frames) }
        ensures within { IfOk result (λ i. i < length self.new.paging.frames) }
        ensures untouched { writes self.old.paging ≡ false → self.new.store ≡ self.old.store }
        ensures named { OnErr result (writes self.old.paging ≡ true) }
        ensures count { length self.new.paging.frames ≡ length self.old.paging.frames }
        ensures fault { IfErr result (λ fault. fault ≡ LevelFault.Store) }
        ensures cause { HasCause (B.faults self.old.store) (B.faults self.new.store) result }
    {
        if let Some(frame) = self.frames.free() {
            return Ok(frame);
        }
        self.frames.sweep();
        let Ok(()) = save(&mut self.frames, &mut self.store) else {
            return Err(LevelFault::Store);
        };
        Ok(self.frames.evict())
    }

    // Brings a page that is not resident into a frame, and gives the frame's number.
    #[inline(never)]
    fn fetch(&mut self, page: u16) -> Result<u8, LevelFault>
        requires taken { IsTaken self.old.slots (page / 8) }
        requires away { frame_of self.old.paging.frames page ≡ None }
        ensures slots { self.new.slots ≡ self.old.slots }
        ensures paging { IfOk result (λ i. (self.new.paging, i) ≡ fetched (with_room self.old.paging) page) }
        ensures found { IfOk result (λ i. frame_of self.new.paging.frames page ≡ Some i) }
        ensures untouched { (writes self.old.paging || reads self.old.paging page) ≡ false → self.new.store ≡ self.old.store }
        ensures named { OnErr result ((writes self.old.paging || reads self.old.paging page) ≡ true) }
        ensures count { length self.new.paging.frames ≡ length self.old.paging.frames }
        ensures fault { IfErr result (λ fault. fault ≡ LevelFault.Store) }
        ensures cause { HasCause (B.faults self.old.store) (B.faults self.new.store) result }
    {
        let Ok(frame) = self.room() else {
            return Err(LevelFault::Store);
        };
        let Ok(()) = load(&mut self.frames, &mut self.store, frame, page) else {
            return Err(LevelFault::Store);
        };
        Ok(frame)
    }

    /// The frame of a page, which is brought into one where it is in none.
    pub(crate) fn reach(&mut self, page: u16) -> Result<u8, LevelFault>
        requires { IsTaken self.old.slots (page / 8) }
        ensures slots { self.new.slots ≡ self.old.slots }
        ensures paging { IfOk result (λ i. (self.new.paging, i) ≡ brought self.old.paging page) }
        ensures found { IfOk result (λ i. frame_of self.new.paging.frames page ≡ Some i) }
        ensures untouched { needs_store self.old.paging page ≡ false → self.new.store ≡ self.old.store }
        ensures named { OnErr result (needs_store self.old.paging page ≡ true) }
        ensures count { length self.new.paging.frames ≡ length self.old.paging.frames }
        ensures fault { IfErr result (λ fault. fault ≡ LevelFault.Store) }
        ensures cause { HasCause (B.faults self.old.store) (B.faults self.new.store) result }
    {
        if let Some(frame) = self.frames.frame_of(page) {
            return Ok(frame);
        }
        self.fetch(page)
    }
}
