// Where a trace stands.
ghost use Rattle.std.specs.Prelude.{◌≡◌, ◌≤◌, ◌<◌, ◌∷◌, ◌++◌, [], List, length};
ghost use Rattle.psos_limits.specs.declared.TheConstants.{TRACE_ROOM};
ghost use Rattle.psos_calls.specs.declared.step.Step.{Step as StepValue};
ghost use Rattle.psos_calls.specs.Levels.Level7.{reads_page as is_page_read};
ghost use Rattle.psos_calls.specs.Plan.Asked.{asks_dir as is_for_dir, IsLastDir};
ghost use Rattle.psos_calls.specs.Plan.Steps.{EndsReading};

use crate::LevelCall;

/// How many calls of a trace ask for a directory, where the last of them stands, and how many of its last calls read
/// pages: what a plan would else go through its calls for again, after each of them.
#[derive(Clone, Copy)]
pub(crate) struct Landmarks {
    pub asked: usize,
    pub last_dir: usize,
    pub reading: usize,
}

impl Landmarks {
    /// In a trace with no call.
    pub fn none() -> Landmarks
        ensures last_dir { IsLastDir result.asked result.last_dir [] }
        ensures last_pages { EndsReading result.reading [] }
    {
        Landmarks {
            asked: 0,
            last_dir: 0,
            reading: 0,
        }
    }

    /// After one more call, in a trace with so many before it.
    pub fn after(self, len: usize, call: &LevelCall) -> Landmarks
        requires room { len < TRACE_ROOM }
        requires few { self.asked ≤ len }
        ensures last_dir { (steps : List StepValue) (s : StepValue) → length steps ≡ len → s.call ≡ call.now → IsLastDir self.asked self.last_dir steps → IsLastDir result.asked result.last_dir (steps ++ s ∷ []) }
        ensures last_pages { (steps : List StepValue) (s : StepValue) → s.call ≡ call.now → EndsReading self.reading steps → EndsReading result.reading (steps ++ s ∷ []) }
    {
        match call {
            LevelCall::DirAt { .. } => Landmarks {
                asked: self.asked + 1,
                last_dir: len,
                reading: 0,
            },
            LevelCall::PageGet { .. } => Landmarks {
                asked: self.asked,
                last_dir: self.last_dir,
                reading: self.reading.saturating_add(1),
            },
            _ => Landmarks {
                asked: self.asked,
                last_dir: self.last_dir,
                reading: 0,
            },
        }
    }
}
