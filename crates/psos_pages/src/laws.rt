// What holds of the definition of frames.
ghost use Rattle.psos_pages.specs.Quiet.{QuietFrames};
ghost use Rattle.psos_pages.specs.SecondChance.{SecondChance};

/// Where no frame is free, the victim is the first page after the hand, in a circle, that was not used since the hand last
/// passed it (docs/levels.md, "Frames"). The pages that the hand passes lose the mark used, and no other frame changes.
pub fn victims_had_their_second_chance()
    ensures { SecondChance }
{}

/// While frames are free and no page has a block, a call that drops no slot reads and writes no block, and takes at most
/// one of the free frames.
pub fn frames_fill_without_the_store()
    ensures { QuietFrames }
{}
