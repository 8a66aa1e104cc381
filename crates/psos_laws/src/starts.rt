// Laws of sound states and starts.
ghost use Rattle.std.specs.Prelude.{ℕ, ◌+◌, ◌<◌, ◌^◌, IsTrue};
ghost use Rattle.psos_calls.specs.Language.Script.{Script, IsWellFormed};
ghost use Rattle.psos_model.specs.Flat.{Flat};
ghost use Rattle.psos_model.specs.Answer.{answer};
ghost use Rattle.psos_model.specs.Answer.CanStep.{CanStep};
ghost use Rattle.psos_model.specs.Run.{has_left};
ghost use Rattle.psos_model.specs.Laws.{BootIsStart};
ghost use Rattle.psos_model.specs.Sound.{IsSound};
ghost use Rattle.psos_laws.specs.SoundParts.{IsSoundUsers};

/// Each answer from a sound state keeps the users' own parts sound (docs/promises.md, "Sound states").
pub fn users_stay_sound()
    ensures { (s : Script) (f : Flat) (u : ℕ) → IsWellFormed s → IsSound s f → IsSoundUsers s (answer s f u).0 }
{}

/// In a sound state with two identifiers left, whoever has a request left can be answered by the plain program
/// (docs/requests.md, "Answers").
pub fn sound_can_step()
    ensures { (s : Script) (f : Flat) (u : ℕ) → IsWellFormed s → IsSound s f → f.next + 2 < 2 ^ 64 → IsTrue (has_left s f.users u) → CanStep f u }
{}

/// A well-formed script can run from boot, which is sound (docs/promises.md, "Sound states").
pub fn boot_is_start()
    ensures { BootIsStart }
{}
