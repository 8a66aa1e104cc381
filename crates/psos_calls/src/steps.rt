// The calls of a closed request.
ghost use Rattle.std.specs.Prelude.{◌≡◌, [], length, IfOk};
ghost use Rattle.psos_calls.specs.Plan.Kept.{calls_of};

use crate::kept_call::KeptCall;
use psos_words::Word;
use std::alloc::{AllocError, Global};
use std::marker::Model;

/// The calls that a request made, in order, without their answers: those of a trace (`Trace::calls`). It is seen as
/// their list, each with its level.
#[derive(Drop)]
pub struct Steps {
    calls: Vec<KeptCall>,
    // The words of those that have some.
    words: Vec<Word>,
}

impl Model for Steps {
    ghost use Rattle.std.specs.Prelude.{List};
    ghost use Rattle.psos_calls.specs.declared.level.Level.{Level};
    ghost use Rattle.psos_calls.specs.Levels.Calls.{LevelCall};
    ghost use Rattle.psos_calls.specs.Plan.Kept.{calls_of};

    ghost Value = { List (Level × LevelCall) };

    ghost view = { λ s. calls_of s.words.items s.calls.items };
}

impl Steps {
    /// No call. It takes no memory.
    pub fn empty(alloc: Global) -> Steps
        ensures { result ≡ [] }
    {
        Steps {
            calls: Vec::new(alloc),
            words: Vec::new(alloc),
        }
    }

    // The calls that are kept so, with their words among these, in no more memory than they need.
    pub(crate) fn of(alloc: Global, calls: &[KeptCall], words: &[Word]) -> Result<Steps, AllocError>
        ensures { IfOk result (λ s. s ≡ calls_of words.now calls.now) }
    {
        let mut kept = Vec::with_capacity(alloc, calls.len())?;
        kept.extend_from_slice(calls)?;
        let mut apart = Vec::with_capacity(alloc, words.len())?;
        apart.extend_from_slice(words)?;
        Ok(Steps {
            calls: kept,
            words: apart,
        })
    }

    /// How many calls there are.
    pub fn len(&self) -> usize
        ensures { result ≡ length self.now }
    {
        self.calls.len()
    }
}
