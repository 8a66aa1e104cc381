// What the users of a run share.
ghost use Rattle.std.specs.Prelude.{◌≡◌};
ghost use Rattle.psos_calls.specs.Language.Script.{IsWellFormed};

use crate::locks::Locks;
use crate::run::Run;
use psos_calls::Script;
use psos_io::Store;
use std::alloc::Global;
use std::marker::Model;

/// What the users of a run share while they are at work: the runtime, memory, the locks, the script of the run, which is
/// well formed, and the gate. It is seen as the script (docs/levels.md, "Phases").
#[derive(Drop)]
pub struct Scene<'a, T: Run, B: Store, R, G> {
    pub(crate) rt: &'a R,
    pub(crate) alloc: Global,
    pub(crate) locks: &'a Locks<T, B>,
    pub(crate) script: &'a Script,
    pub(crate) gate: &'a G,
}

impl<'a, T: Run, B: Store, R, G> Model for Scene<'a, T, B, R, G> {
    ghost use Rattle.std.specs.Prelude.{◌≡◌};
    ghost use Rattle.psos_calls.specs.Language.Script.{Script, IsWellFormed};

    ghost Value = { Script };

    ghost view = { λ s. s.script.now };

    ghost invariant = { λ s. (s.script.now ≡ T.script) × IsWellFormed T.script };
}
