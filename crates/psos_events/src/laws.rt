// Laws of events.
ghost use Rattle.psos_model.specs.Laws.{OneTurnsOrder};
ghost use Rattle.psos_model.specs.Events.Serial.{EventsAreSerial, NeverStuck};
ghost use Rattle.psos_events.specs.Committed.{CommittedWasFree, ClosesCommit, OthersCommitElsewhere};
ghost use Rattle.psos_events.specs.Replays.{RunsStand};
ghost use Rattle.psos_events.specs.Events.{BootIsCoreStart, EventsCommit, EventsCanHappen, EventsGoOn, EventsEnd};
ghost use Rattle.psos_events.specs.Phases.{PhasesFollow};

/// After every legal order of users from a start, and so after each of its requests, the levels of the replay stand
/// for the flat state of the run, which is sound; what was answered is the same; and a request makes at most 44 calls
/// (docs/promises.md, "Stands for").
pub fn runs_stand()
    ensures { RunsStand }
{}

/// After any enabled events from a start, what the core has done is the replay of the requests that closed, one after
/// another, and the order of their closes is legal (docs/levels.md, "Locks").
pub fn events_are_serial()
    ensures { EventsAreSerial }
{}

/// After any enabled events from a start, some user's event is enabled while a user has a request left
/// (docs/levels.md, "Locks").
pub fn never_stuck()
    ensures { NeverStuck }
{}

/// A well-formed script can run from boot, level by level (docs/promises.md, "Stands for").
pub fn boot_is_core_start()
    ensures { BootIsCoreStart }
{}

/// After any enabled events from a start, what the core has committed stands for the flat state of the run of its
/// closes, and its entries say what that run answers (docs/levels.md, "Locks").
pub fn events_commit()
    ensures { EventsCommit }
{}

/// After any enabled events from a start, what is committed to a lock is what lay under it when it was last free
/// (docs/levels.md, "Locks").
pub fn committed_was_free()
    ensures { CommittedWasFree }
{}

/// An event that closes a request commits that request and no other, and a take or a call commits nothing
/// (docs/levels.md, "Locks").
pub fn closes_commit()
    ensures { ClosesCommit }
{}

/// After any enabled events from a start, an event of a user that does not hold a lock leaves what is committed to that
/// lock, also where it closes a request (docs/levels.md, "Locks").
pub fn others_commit_elsewhere()
    ensures { OthersCommitElsewhere }
{}

/// After any enabled events from a start, each event can happen: a call that is made next meets its condition and has
/// room in its trace, and where a request closes next, its user's part can be settled (docs/levels.md, "Calls").
pub fn events_can_happen()
    ensures { EventsCanHappen }
{}

/// After any enabled events from a start, each enabled event takes the core further, and there is a bound on how far it
/// goes: so events come to an end (docs/levels.md, "Locks").
pub fn events_go_on()
    ensures { EventsGoOn }
{}

/// After any enabled events from a start, where nobody has a request left, the core has the levels and the users' own
/// parts that are committed (docs/levels.md, "Locks").
pub fn events_end()
    ensures { EventsEnd }
{}

/// A seed has one order of turns at most (docs/program.md, "Turns").
pub fn one_turns_order()
    ensures { OneTurnsOrder }
{}

/// In each legal order from a start, each request has a phase when it is asked, and all requests of a phase come before
/// those of the next (docs/promises.md, "Runs").
pub fn phases_follow()
    ensures { PhasesFollow }
{}
