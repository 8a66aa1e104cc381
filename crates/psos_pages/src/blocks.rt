// Pages in the blocks of the backing store.
ghost use Rattle.std.specs.Prelude.{◌≡◌, ◌<◌, Some, None, true, false, length, is_some, slice_set, slice_index_or, IfErr, OnErr, OnOk};
ghost use Rattle.psos_io.specs.Causes.{HasCause};
ghost use Rattle.psos_pages.specs.Frames.{frame_of, free_frame, new_frame, page_in, saved, is_changed};
ghost use Rattle.psos_pages.specs.Kept.{IsHeld, at_hand};
ghost use Rattle.psos_pages.specs.State.{AreStored, blocks_of, words_stored};

use crate::frames::Frames;
use psos_calls::LevelFault;
use psos_io::Store;

/// Writes the victim to its block, where it was changed. Where that fails it has no block.
pub fn save<B: Store>(frames: &mut Frames, store: &mut B) -> Result<(), LevelFault>
    requires held { IsHeld frames.old.frames frames.old.hand }
    requires marks { length frames.old.stored ≡ 4168 }
    ensures frames { frames.new.frames ≡ frames.old.frames }
    ensures hand { frames.new.hand ≡ frames.old.hand }
    ensures marks { length frames.new.stored ≡ 4168 }
    ensures done { OnOk result (blocks_of frames.new.stored (B.blocks store.new) ≡ saved (blocks_of frames.old.stored (B.blocks store.old)) (at_hand frames.old)) }
    ensures failed { OnErr result (blocks_of frames.new.stored (B.blocks store.new) ≡ slice_set (blocks_of frames.old.stored (B.blocks store.old)) (page_in (at_hand frames.old)) None) }
    ensures changed { OnErr result (is_changed (at_hand frames.old) ≡ true) }
    ensures stored { AreStored frames.old.stored (B.blocks store.old) → AreStored frames.new.stored (B.blocks store.new) }
    ensures untouched { is_changed (at_hand frames.old) ≡ false → store.new ≡ store.old }
    ensures fault { IfErr result (λ fault. fault ≡ LevelFault.Store) }
    ensures cause { HasCause (B.faults store.old) (B.faults store.new) result }
{
    let Some(page) = frames.victim() else {
        return Ok(());
    };
    let mut block = [0; 1032];
    frames.page(frames.hand()).to_block(&mut block);
    frames.set_stored(page, false);
    let Ok(()) = store.write(page, &block) else {
        return Err(LevelFault::Store);
    };
    frames.set_stored(page, true);
    Ok(())
}

/// Puts a page into the least free frame, as it lies in its block, or zero where it has none. Where the block is not
/// read the frame is free.
pub fn load<B: Store>(
    frames: &mut Frames,
    store: &mut B,
    frame: u8,
    page: u16,
) -> Result<(), LevelFault>
    requires free { frame ≡ free_frame frames.old.frames }
    requires within { frame < length frames.old.frames }
    requires below { page < 4168 }
    requires away { frame_of frames.old.frames page ≡ None }
    requires stored { AreStored frames.old.stored (B.blocks store.old) }
    ensures frames { OnOk result (frames.new.frames ≡ slice_set frames.old.frames frame (Some (new_frame page (words_stored frames.old (B.blocks store.old) page)))) }
    ensures hand { frames.new.hand ≡ frames.old.hand }
    ensures stored { frames.new.stored ≡ frames.old.stored }
    ensures free { OnErr result (frames.new ≡ frames.old) }
    ensures kept { B.blocks store.new ≡ B.blocks store.old }
    ensures untouched { is_some (slice_index_or (blocks_of frames.old.stored (B.blocks store.old)) page None) ≡ false → store.new ≡ store.old }
    ensures named { OnErr result (is_some (slice_index_or (blocks_of frames.old.stored (B.blocks store.old)) page None) ≡ true) }
    ensures fault { IfErr result (λ fault. fault ≡ LevelFault.Store) }
    ensures cause { HasCause (B.faults store.old) (B.faults store.new) result }
{
    if !frames.is_stored(page) {
        frames.fill_zero(frame, page);
        return Ok(());
    }
    let mut block = [0; 1032];
    let Ok(()) = store.read(page, &mut block) else {
        return Err(LevelFault::Store);
    };
    frames.fill_from(frame, page, &block);
    Ok(())
}
