// The answers to an open request's calls.
ghost use Rattle.std.specs.Prelude.{◌≡◌, ◌<◌, [], ◌∷◌, ◌++◌, Some, length, slice_get, slice_index_or, IfOk};
ghost use Rattle.psos_limits.specs.declared.TheConstants.{TRACE_ROOM};
ghost use Rattle.psos_calls.specs.declared.level_answer.LevelAnswer.TheVariants.{Whole};
ghost use Rattle.psos_calls.specs.Levels.Answers.{with_any_page};
ghost use Rattle.psos_calls.specs.Plan.Told.{answer_of, IsTold};

use crate::kept_pages::KeptPages;
use crate::{LevelAnswer, NoPage, Sheet};
use psos_limits::TRACE_ROOM;
use psos_words::{Page, Word};
use std::alloc::{AllocError, Global};
use std::marker::Model;

/// What the calls of an open request were answered, in order: at most 64. It is seen as their list. Room for all is
/// taken when it is made.
#[derive(Drop)]
pub(crate) struct KeptAnswers {
    // An answer that is a page tells which of those below it is, so the others take no room for one.
    told: Vec<LevelAnswer<u8>>,
    pages: KeptPages,
}

impl Model for KeptAnswers {
    ghost use Rattle.std.specs.Prelude.{List, vec_capacity};
    ghost use Rattle.psos_calls.specs.Levels.Answers.{LevelAnswer};
    ghost use Rattle.psos_calls.specs.Plan.Told.{answers_of, AreAnswers};

    ghost Value = { List LevelAnswer };

    ghost view = { λ k. answers_of k.pages k.told.items };

    ghost invariant = { λ k. AreAnswers (vec_capacity k.told) k.pages k.told.items };
}

impl KeptAnswers {
    /// No answer. `Err` only where memory runs out.
    pub fn new(alloc: Global) -> Result<KeptAnswers, AllocError>
        ensures { IfOk result (λ k. k ≡ []) }
    {
        Ok(KeptAnswers {
            told: Vec::with_capacity(alloc, TRACE_ROOM)?,
            pages: KeptPages::new(alloc)?,
        })
    }

    /// One more answer at the end, which is no page. There is room for 64. It takes no memory.
    pub fn push(&mut self, answer: LevelAnswer<NoPage>)
        requires { length self.old < TRACE_ROOM }
        ensures { self.new ≡ self.old ++ with_any_page answer ∷ [] }
    {
        self.told.push_reserved(answer.with_any_page());
    }

    /// One more answer at the end, a page of these 64 words. There is room for 64. It takes no memory.
    pub fn push_page(&mut self, words: &[Word])
        requires room { length self.old < TRACE_ROOM }
        requires words { length words.now ≡ 64 }
        ensures { self.new ≡ self.old ++ Whole words.now ∷ [] }
    {
        self.told
            .push_reserved(LevelAnswer::Whole(self.pages.len() as u8));
        self.pages.push(words);
    }

    /// Answer i.
    #[inline(always)]
    pub fn answer(&self, i: usize) -> LevelAnswer<Sheet<'_>>
        requires { i < length self.now }
        ensures { slice_get self.now i ≡ Some result }
    {
        as_told(&self.told[i], self.pages.as_slice())
    }

    /// Forgets all of them. It takes no memory.
    pub fn clear(&mut self)
        ensures { self.new ≡ [] }
    {
        self.told.clear();
        self.pages.clear();
    }
}

// The answer that is told so, with its page among these.
#[inline(always)]
fn as_told<'a>(told: &LevelAnswer<u8>, pages: &'a [Page]) -> LevelAnswer<Sheet<'a>>
    requires { IsTold (length pages.now) told.now }
    ensures { result ≡ answer_of pages.now told.now }
{
    match *told {
        LevelAnswer::Done => LevelAnswer::Done,
        LevelAnswer::Entered { label, link } => LevelAnswer::Entered { label, link },
        LevelAnswer::Got(word) => LevelAnswer::Got(word),
        LevelAnswer::Is(kind) => LevelAnswer::Is(kind),
        LevelAnswer::Guard(guard) => LevelAnswer::Guard(guard),
        LevelAnswer::Rep(uid) => LevelAnswer::Rep(uid),
        LevelAnswer::At { page, off } => LevelAnswer::At { page, off },
        LevelAnswer::Slot(slot) => LevelAnswer::Slot(slot),
        LevelAnswer::Len(n) => LevelAnswer::Len(n),
        LevelAnswer::Whole(k) => LevelAnswer::Whole(Sheet::of(&pages[k as usize])),
        LevelAnswer::New(cap) => LevelAnswer::New(cap),
        LevelAnswer::No(refusal) => LevelAnswer::No(refusal),
    }
}
