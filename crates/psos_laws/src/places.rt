// Laws of places: where capabilities come from, and who can hold what.
ghost use Rattle.std.specs.Prelude.{ℕ};
ghost use Rattle.psos_calls.specs.Language.Script.{Script, IsWellFormed};
ghost use Rattle.psos_model.specs.Flat.{Flat};
ghost use Rattle.psos_model.specs.Answer.{answer};
ghost use Rattle.psos_model.specs.Sound.{IsSound};
ghost use Rattle.psos_laws.specs.SoundParts.{IsSoundPlaces};
ghost use Rattle.psos_laws.specs.Trails.{IsConfined};
ghost use Rattle.psos_laws.specs.Laws.{LandingsAreAll, LandingsStay, UnreadIsNew, RunsAreLawful, ConfinedStays, AProcessIsConfined};

/// After each answer to a sound state, every capability at a place is on a used identifier and passes the guard of
/// its store, and one on a directory's representation lies at its own place (docs/promises.md, "Sound states").
pub fn places_stay_sound()
    ensures { (s : Script) (f : Flat) (u : ℕ) → IsWellFormed s → IsSound s f → IsSoundPlaces (answer s f u).0 }
{}

/// A capability at a place after an answer to a sound state landed there, or lay there, or moved up to there
/// (docs/promises.md, "Origins").
pub fn landings_are_all()
    ensures { LandingsAreAll }
{}

/// What landed last at a place is there after an answer to a sound state, if the place is (docs/promises.md,
/// "Origins").
pub fn landings_stay()
    ensures { LandingsStay }
{}

/// A capability that lands and was read nowhere is new (docs/promises.md, "Origins").
pub fn unread_is_new()
    ensures { UnreadIsNew }
{}

/// What is confined in a sound state is confined after each answer, whatever any user asks (docs/promises.md,
/// "Held back, confined").
pub fn confined_stays_once()
    ensures { (s : Script) (f : Flat) (u v x m : ℕ) → IsSound s f → IsConfined f v x m → IsConfined (answer s f u).0 v x m }
{}

/// At every point of each order from a sound state, every capability landed where it is or lay there at the start, has a
/// sound origin and passes the guard of its store, sealed holds, and held back holds (docs/promises.md, "Origins",
/// "Guarded, kept, sealed" and "Held back, confined").
pub fn runs_are_lawful()
    ensures { RunsAreLawful }
{}

/// What is confined after an order from a sound state is confined after each longer one, whatever any user asks
/// (docs/promises.md, "Held back, confined").
pub fn confined_stays()
    ensures { ConfinedStays }
{}

/// Where user 0 first takes bit 0 off the capability on its process, its process is confined for the right send
/// (docs/promises.md, "Held back, confined").
pub fn a_process_is_confined()
    ensures { AProcessIsConfined }
{}
