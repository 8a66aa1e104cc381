// The calls of an open request.
ghost use Rattle.std.specs.Prelude.{◌≡◌, ◌+◌, ◌≤◌, ◌<◌, [], ◌∷◌, ◌++◌, Some, length, slice_get, IfOk, vec_capacity};
ghost use Rattle.psos_limits.specs.declared.TheConstants.{TRACE_ROOM};
ghost use Rattle.psos_calls.specs.Levels.{level_of};
ghost use Rattle.psos_calls.specs.Plan.Kept.{words_in, WritesFour};

use crate::kept_call::KeptCall;
use crate::{CallRef, LevelCall, Steps};
use psos_limits::TRACE_ROOM;
use psos_words::Word;
use std::alloc::{AllocError, Global};
use std::marker::Model;

/// The calls that an open request made, in order: at most 64. It is seen as their list, each with its level. Room for
/// all is taken when it is made.
#[derive(Drop)]
pub(crate) struct KeptCalls {
    calls: Vec<KeptCall>,
    // The words of those that have some.
    words: Vec<Word>,
}

impl Model for KeptCalls {
    ghost use Rattle.std.specs.Prelude.{List, vec_capacity};
    ghost use Rattle.psos_calls.specs.declared.level.Level.{Level};
    ghost use Rattle.psos_calls.specs.Levels.Calls.{LevelCall};
    ghost use Rattle.psos_calls.specs.Plan.Kept.{calls_of, AreKept};

    ghost Value = { List (Level × LevelCall) };

    ghost view = { λ k. calls_of k.words.items k.calls.items };

    ghost invariant = { λ k. AreKept (vec_capacity k.calls) (vec_capacity k.words) k.words.items k.calls.items };
}

impl KeptCalls {
    /// No call. `Err` only where memory runs out.
    pub fn new(alloc: Global) -> Result<KeptCalls, AllocError>
        ensures { IfOk result (λ k. k ≡ []) }
    {
        Ok(KeptCalls {
            calls: Vec::with_capacity(alloc, TRACE_ROOM)?,
            words: Vec::with_capacity(alloc, 4 * TRACE_ROOM)?,
        })
    }

    /// One more call at the end. There is room for 64. It takes no memory.
    pub fn push(&mut self, call: &LevelCall)
        requires { length self.old < TRACE_ROOM }
        ensures { self.new ≡ self.old ++ (level_of call.now, call.now) ∷ [] }
    {
        let at = self.words.len();
        push_words(&mut self.words, call);
        self.calls.push_reserved(call.kept_at(at as u8));
    }

    /// How many there are.
    pub fn len(&self) -> usize
        ensures { result ≡ length self.now }
    {
        self.calls.len()
    }

    /// Call i.
    #[inline(always)]
    pub fn call(&self, i: usize) -> CallRef<'_>
        requires { i < length self.now }
        ensures { slice_get self.now i ≡ Some (level_of result, result) }
    {
        CallRef::of(&self.calls[i], &self.words)
    }

    /// Forgets all of them. It takes no memory.
    pub fn clear(&mut self)
        ensures { self.new ≡ [] }
    {
        self.calls.clear();
        self.words.clear();
    }

    /// The same calls, in no more memory than they need. `Err` only where memory runs out.
    pub fn steps(&self, alloc: Global) -> Result<Steps, AllocError>
        ensures { IfOk result (λ s. s ≡ self.now) }
    {
        Steps::of(alloc, &self.calls, &self.words)
    }
}

// The words of a call go last among others. There is room for four.
fn push_words(words: &mut Vec<Word>, call: &LevelCall)
    requires { length words.old.items + 4 ≤ vec_capacity words.old }
    ensures items { words.new.items ≡ words.old.items ++ words_in call.now }
    ensures four { WritesFour call.now }
    ensures room { vec_capacity words.old ≤ vec_capacity words.new }
{
    match call {
        LevelCall::Locate {
            word: Some(word),
            ..
        } => words.push_reserved(*word),
        LevelCall::FourPut { words: four, .. } => push_four(words, four),
        _ => {}
    }
}

// Four words go last among others. There is room for them.
fn push_four(words: &mut Vec<Word>, four: &[Word; 4])
    requires { length words.old.items + 4 ≤ vec_capacity words.old }
    ensures items { words.new.items ≡ words.old.items ++ four.now }
    ensures long { length four.now ≡ 4 }
    ensures room { vec_capacity words.old ≤ vec_capacity words.new }
{
    let _done = words.extend_from_slice(four);
}
