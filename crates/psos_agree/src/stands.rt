// Changes under which the levels go on to stand for the flat state.
ghost use Rattle.psos_agree.specs.Standing.{SlotsAreLeft, SegmentsAreMade, SegmentsGo, ObjectsAreMade, ObjectsGo, DirectoriesAreMade, DirectoriesGo, EntriesAreAdded, EntriesAreRemoved};

/// Where one more user object fits into a sound state, a slot of pages is free (docs/levels.md, "Pages and slots").
pub fn slots_are_left()
    ensures { SlotsAreLeft }
{}

/// The levels go on to stand for the flat state where a segment is made on an identifier that is new at level 8, and
/// where a live segment goes with the windows over it (docs/promises.md, "Stands for").
pub fn segments_stand()
    ensures made { SegmentsAreMade }
    ensures gone { SegmentsGo }
{}

/// The same of an object with its representation.
pub fn objects_stand()
    ensures made { ObjectsAreMade }
    ensures gone { ObjectsGo }
{}

/// The same of a directory with its representation.
pub fn directories_stand()
    ensures made { DirectoriesAreMade }
    ensures gone { DirectoriesGo }
{}

/// The same where an entry is written into a directory, and where one is taken out.
pub fn entries_stand()
    ensures added { EntriesAreAdded }
    ensures removed { EntriesAreRemoved }
{}
