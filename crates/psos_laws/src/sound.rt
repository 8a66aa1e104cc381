// Laws of sound states: what an answer, or a run, leaves.
ghost use Rattle.std.specs.Prelude.{ℕ};
ghost use Rattle.psos_calls.specs.Language.Script.{Script, IsWellFormed};
ghost use Rattle.psos_model.specs.Flat.{Flat};
ghost use Rattle.psos_model.specs.Answer.{answer};
ghost use Rattle.psos_model.specs.Laws.{AnswersKeepSound, RunsKeepSound};
ghost use Rattle.psos_laws.specs.SoundParts.{IsSoundShared};

/// Each answer to a user of a well-formed script keeps a sound state sound (docs/promises.md, "Sound states").
pub fn answers_keep_sound()
    ensures { AnswersKeepSound }
{}

/// Each run of a well-formed script keeps a sound state sound, whatever the order of the users (docs/promises.md, "Sound
/// states").
pub fn runs_keep_sound()
    ensures { RunsKeepSound }
{}

/// Each answer to a well-formed script keeps sound what users share: every table, the user objects, what boot made,
/// the limits, and the distinguished entries (docs/promises.md, "Sound states"). It needs no more than that these are sound before.
pub fn shared_stays_sound()
    ensures { (s : Script) (f : Flat) (u : ℕ) → IsWellFormed s → IsSoundShared s f → IsSoundShared s (answer s f u).0 }
{}
