// Slots that are taken and freed.
ghost use Rattle.std.specs.Prelude.{◌≡◌, ◌<◌, ◌*◌, Some, None, length, slice_set};
ghost use Rattle.psos_limits.specs.declared.TheConstants.{MOST_WORDS, SLOTS};
ghost use Rattle.psos_words.specs.Words.{zeros};
ghost use Rattle.psos_calls.specs.Levels.Level7.{IsTaken, first_free};
ghost use Rattle.psos_pages.specs.Frames.{dropped};
ghost use Rattle.psos_pages.specs.State.{without_pages};

use crate::Pages;
use crate::frames::Frames;
use psos_io::Store;

impl<B: Store> Pages<B> {
    /// Takes the least free slot, with all words data 0.
    pub(crate) fn take(&mut self) -> u16
        requires { first_free self.old.slots < length self.old.slots }
        ensures slot { result ≡ first_free self.old.slots }
        ensures slots { self.new.slots ≡ slice_set self.old.slots (first_free self.old.slots) (Some (zeros MOST_WORDS)) }
        ensures paging { self.new.paging ≡ self.old.paging }
        ensures store { self.new.store ≡ self.old.store }
    {
        let Some(slot) = self.taken.take() else {
            unreachable!()
        };
        slot
    }

    /// Frees a slot, whose pages become zero.
    pub(crate) fn free(&mut self, slot: u16)
        requires { IsTaken self.old.slots slot }
        ensures slots { self.new.slots ≡ slice_set self.old.slots slot None }
        ensures paging { self.new.paging ≡ dropped 8 self.old.paging (8 * slot) }
        ensures count { length self.new.paging.frames ≡ length self.old.paging.frames }
        ensures store { self.new.store ≡ self.old.store }
    {
        forget_slot(&mut self.frames, slot);
        self.taken.give(slot);
    }
}

// Makes the pages of a slot zero.
fn forget_slot(frames: &mut Frames, slot: u16)
    requires { slot < SLOTS }
    ensures { frames.new ≡ without_pages 8 frames.old (8 * slot) }
{
    'pages: for k in 0..8u16 {
        frames.forget(8 * slot + k);
    }
}
