// Laws of histories by lock, and of requests at work.
ghost use Rattle.psos_histories.specs.Pieces.{CallsAreOfPieces, PiecesAreAll};
ghost use Rattle.psos_histories.specs.Names.{LocksAreMembers};
ghost use Rattle.psos_histories.specs.Records.{HistoriesByLock, HistoriesAreReplay, RecordsAreFew, RecordsHaveUsers, RecordsHaveLists, RecordsAreFaithful, ListsAreUsers};
ghost use Rattle.psos_histories.specs.Grips.{HistoriesBegin};
ghost use Rattle.psos_histories.specs.Falling.{PlansFall};
ghost use Rattle.psos_histories.specs.Requests.{RequestsBegin, RequestsGoOn, LocksAreTaken, CallsAreMade, RequestsAreAble};
ghost use Rattle.psos_histories.specs.Closes.{BitsAreNames, RequestsClose, UsersStay};
ghost use Rattle.psos_histories.specs.Phases.{PastStays, LeftInPhase, NobodyHasLeft};

/// Each call of the levels is the call of what lies under its lock, and leaves what lies under any other lock
/// (docs/levels.md, "Locks").
pub fn calls_are_of_pieces()
    ensures { CallsAreOfPieces }
{}

/// Levels in which only users have mailboxes are all that lies under their locks (docs/levels.md, "Locks").
pub fn pieces_are_all()
    ensures { PiecesAreAll }
{}

/// Each lock has a member of its own in a journal, behind those of the users; for eight users there are 23
/// (docs/levels.md, "Journal").
pub fn locks_are_members()
    ensures { LocksAreMembers }
{}

/// Before the first entry nothing is recorded, and each lock is free and not broken (docs/levels.md, "Locks").
pub fn histories_begin()
    ensures { HistoriesBegin }
{}

/// What lies under a lock after the replay of what is recorded is what the calls under that lock leave, of the entries
/// that name it (docs/levels.md, "Locks").
pub fn histories_by_lock()
    ensures { HistoriesByLock }
{}

/// Where under each lock lies what its history leaves, the levels are those of the replay (docs/promises.md,
/// "Replays").
pub fn histories_are_replay()
    ensures { HistoriesAreReplay }
{}

/// What is recorded has at most 32,768 entries (docs/promises.md, "Runs").
pub fn records_are_few()
    ensures { RecordsAreFew }
{}

/// Who has an own part after the replay of what is recorded is a user of the script (docs/promises.md, "Runs").
pub fn records_have_users()
    ensures { RecordsHaveUsers }
{}

/// In the levels of the replay of what is recorded the words of each live directory are an entry list
/// (docs/promises.md, "Stands for").
pub fn records_have_lists()
    ensures { RecordsHaveLists }
{}

/// The entries of what is recorded from boot are faithful (docs/promises.md, "Replays").
pub fn records_are_faithful()
    ensures { RecordsAreFaithful }
{}

/// The list of a user's member is that user's entries, in order (docs/levels.md, "Journal").
pub fn lists_are_users()
    ensures { ListsAreUsers }
{}

/// The plan of each request asks for its locks in the falling order, whatever the levels answer (docs/levels.md,
/// "Locks").
pub fn plans_fall()
    ensures { PlansFall }
{}

/// A request is at work from when it has no lock and has made no call (docs/levels.md, "Locks").
pub fn requests_begin()
    ensures { RequestsBegin }
{}

/// A request at work is so still when others have closed, whose entries its locks have met; its trace is then a front
/// of its plan's run from the levels that they left (docs/levels.md, "Locks").
pub fn requests_go_on()
    ensures { RequestsGoOn }
{}

/// A lock that a request at work needs and does not hold is of a later level than all that it holds; the request takes
/// it where it is not broken and has met the same entries (docs/levels.md, "Locks").
pub fn locks_are_taken()
    ensures { LocksAreTaken }
{}

/// A request at work makes the call that its plan asks for, on what lies under a lock that it holds, and the answer is
/// that of the levels (docs/levels.md, "Locks").
pub fn calls_are_made()
    ensures { CallsAreMade }
{}

/// The call that comes next meets its condition, and a request makes at most 44 calls (docs/levels.md, "Calls").
pub fn requests_are_able()
    ensures { RequestsAreAble }
{}

/// The names of an entry, as bits, are its user, each lock that is held, and no other user (docs/levels.md,
/// "Journal").
pub fn bits_are_names()
    ensures { BitsAreNames }
{}

/// Where the plan closes and its user has a request left, the user's part can be settled; with the entry last, the
/// entries are recorded, the user's part is the settled one, and its locks are free and not broken (docs/levels.md,
/// "Locks").
pub fn requests_close()
    ensures { RequestsClose }
{}

/// A user's own part depends on the entries up to the last that names it, and on none after it (docs/levels.md,
/// "Journal").
pub fn users_stay()
    ensures { UsersStay }
{}

/// Who asks nothing more of the phases before one does so after any requests (docs/promises.md, "Runs").
pub fn past_stays()
    ensures { PastStays }
{}

/// Who has an open body, or asks something of a phase, has a request left where receipts show that all others ask
/// nothing more of the phases before it (docs/promises.md, "Runs").
pub fn left_in_phase()
    ensures { LeftInPhase }
{}

/// Where no user has an open body or asks anything more, nobody has a request left (docs/promises.md, "Runs").
pub fn nobody_has_left()
    ensures { NobodyHasLeft }
{}
