// The calls of an open request.
ghost use Rattle.std.specs.Prelude.{◌≡◌, ◌<◌, [], ◌∷◌, ◌++◌, Some, length, slice_get, IfOk};
ghost use Rattle.psos_limits.specs.declared.TheConstants.{TRACE_ROOM};
ghost use Rattle.psos_calls.specs.declared.level_answer.LevelAnswer.TheVariants.{Whole};
ghost use Rattle.psos_calls.specs.Levels.{level_of};
ghost use Rattle.psos_calls.specs.Levels.Answers.{with_any_page};
ghost use Rattle.psos_calls.specs.Plan.Asked.{IsSinceDir};
ghost use Rattle.psos_calls.specs.Plan.Steps.{EndsReading};
ghost use Rattle.psos_calls.specs.Plan.Trace.{calls_in};

use crate::kept_answers::KeptAnswers;
use crate::kept_calls::KeptCalls;
use crate::landmarks::Landmarks;
use crate::{LevelAnswer, LevelCall, NoPage, Step, StepSlice, Steps};
use psos_words::Word;
use std::alloc::{AllocError, Global};
use std::marker::Model;

/// The calls that an open request made, with their answers, in order: at most 64. It is seen as their list. Its memory
/// is taken when it is made, and used again for each request.
#[derive(Drop)]
pub struct Trace {
    calls: KeptCalls,
    answers: KeptAnswers,
    marks: Landmarks,
}

impl Model for Trace {
    ghost use Rattle.std.specs.Prelude.{List};
    ghost use Rattle.psos_calls.specs.declared.step.Step.{Step};
    ghost use Rattle.psos_calls.specs.Plan.Steps.{steps_of, IsTrace};

    ghost Value = { List Step };

    ghost view = { λ t. steps_of t.calls t.answers };

    ghost invariant = { λ t. IsTrace t.marks.asked t.marks.last_dir t.marks.reading t.calls t.answers };
}

impl Trace {
    /// No call. `Err` only where memory runs out.
    pub fn new(alloc: Global) -> Result<Trace, AllocError>
        ensures { IfOk result (λ t. t ≡ []) }
    {
        Ok(Trace {
            calls: KeptCalls::new(alloc)?,
            answers: KeptAnswers::new(alloc)?,
            marks: Landmarks::none(),
        })
    }

    /// One more call at the end, with its answer, which is no page. There is room for 64. It takes no memory.
    pub fn push(&mut self, call: &LevelCall, answer: LevelAnswer<NoPage>)
        requires { length self.old < TRACE_ROOM }
        ensures { self.new ≡ self.old ++ record { level = level_of call.now; call = call.now; answer = with_any_page answer } ∷ [] }
    {
        self.marks = self.marks.after(self.calls.len(), call);
        self.calls.push(call);
        self.answers.push(answer);
    }

    /// One more call at the end, which was answered with a page of these 64 words. There is room for 64 calls. It takes
    /// no memory.
    pub fn push_page(&mut self, call: &LevelCall, words: &[Word])
        requires room { length self.old < TRACE_ROOM }
        requires words { length words.now ≡ 64 }
        ensures { self.new ≡ self.old ++ record { level = level_of call.now; call = call.now; answer = Whole words.now } ∷ [] }
    {
        self.marks = self.marks.after(self.calls.len(), call);
        self.calls.push(call);
        self.answers.push_page(words);
    }

    /// How many there are.
    pub fn len(&self) -> usize
        ensures { result ≡ length self.now }
    {
        self.calls.len()
    }

    /// Step i.
    #[inline(always)]
    pub fn step(&self, i: usize) -> Step<'_>
        requires { i < length self.now }
        ensures { slice_get self.now i ≡ Some result }
    {
        let call = self.calls.call(i);
        Step {
            level: call.level(),
            call,
            answer: self.answers.answer(i),
        }
    }

    /// All of them, in order.
    pub fn as_slice(&self) -> StepSlice<'_>
        ensures { result ≡ self.now }
    {
        StepSlice::from(self, 0)
    }

    /// The steps from the last call on that asks for a directory, and how many such calls came before. All steps, and
    /// 0, where there is none.
    pub fn since_dir(&self) -> (usize, StepSlice<'_>)
        ensures { IsSinceDir self.now result.0 result.1 }
    {
        (
            self.marks.asked.saturating_sub(1),
            StepSlice::from(self, self.marks.last_dir),
        )
    }

    // How many of the last calls read pages.
    pub(crate) fn reading(&self) -> usize
        ensures { EndsReading result self.now }
    {
        self.marks.reading
    }

    /// Forgets all of them. It takes no memory, and makes nothing anew.
    pub fn clear(&mut self)
        ensures { self.new ≡ [] }
    {
        self.calls.clear();
        self.answers.clear();
        self.marks = Landmarks::none();
    }

    /// The calls without their answers. `Err` only where memory runs out.
    pub fn calls(&self, alloc: Global) -> Result<Steps, AllocError>
        ensures { IfOk result (λ s. s ≡ calls_in self.now) }
    {
        self.calls.steps(alloc)
    }
}
