// The open bodies of a user.
ghost use Rattle.std.specs.Prelude.{◌≡◌, ◌+◌, ◌<◌, ◌≤◌, ◌^◌, false, List, [], ◌∷◌, length, drop, slice_set, IfSome, IfNone};
ghost use Rattle.psos_limits.specs.declared.TheConstants.{MOST_FRAMES};
ghost use Rattle.psos_words.specs.declared.word.Word.{Word as WordValue};
ghost use Rattle.psos_calls.specs.declared.frame.Frame.{Frame as FrameValue};
ghost use Rattle.psos_calls.specs.Language.User.{User, is_over, outward};

use crate::{Frame, Script};
use arrayvec::ArrayVec;
use psos_limits::MOST_FRAMES;
use psos_words::Word;
use std::marker::Model;

/// The open bodies of a user: at most four. They are seen as their list, the innermost first.
#[derive(Drop)]
pub(crate) struct Bodies {
    // The innermost stands last.
    frames: ArrayVec<Frame, MOST_FRAMES>,
}

impl Model for Bodies {
    ghost use Rattle.std.specs.Prelude.{List, reverse};
    ghost use Rattle.psos_calls.specs.declared.frame.Frame.{Frame};

    ghost Value = { List Frame };

    ghost view = { λ b. reverse b.frames.items };
}

impl Bodies {
    /// No body.
    pub fn new() -> Bodies
        ensures { result ≡ [] }
    {
        Bodies {
            frames: ArrayVec::new(),
        }
    }

    /// How many are open.
    pub fn len(&self) -> usize
        ensures count { result ≡ length self.now }
        ensures few { result ≤ MOST_FRAMES }
    {
        self.frames.len()
    }

    /// The innermost one.
    pub fn innermost(&self) -> Option<&Frame>
        ensures none { IfNone result (self.now ≡ []) }
        ensures some { IfSome result (λ q. self.now ≡ q.now ∷ drop 1 self.now) }
    {
        self.frames.last()
    }

    /// Opens a body within the others.
    pub fn enter(&mut self, frame: Frame)
        requires { length self.old < MOST_FRAMES }
        ensures { self.new ≡ frame ∷ self.old }
    {
        self.frames.push(frame);
    }

    /// Ends the innermost one, if one is open.
    pub fn leave(&mut self)
        ensures { self.new ≡ drop 1 self.old }
    {
        self.frames.pop();
    }

    /// One more line of the innermost one is answered.
    pub fn count_line(&mut self)
        requires some { 0 < length self.old }
        requires room { (q : FrameValue) (outer : List FrameValue) → self.old ≡ q ∷ outer → q.line + 1 < 2 ^ 8 }
        ensures { (q : FrameValue) (outer : List FrameValue) → self.old ≡ q ∷ outer → self.new ≡ record q { line = q.line + 1 } ∷ outer }
    {
        let last = self.frames.len() - 1;
        self.frames[last].line += 1;
    }

    /// Puts a word into register i of the innermost one.
    pub fn put(&mut self, i: u8, word: Word)
        requires some { 0 < length self.old }
        requires register { i < 16 }
        ensures { (q : FrameValue) (outer : List FrameValue) → self.old ≡ q ∷ outer → self.new ≡ record q { regs = slice_set q.regs i word } ∷ outer }
    {
        let last = self.frames.len() - 1;
        self.frames[last].regs.set(i, word);
    }

    /// The innermost one has no line left.
    pub fn is_over(&self, script: &Script) -> bool
        ensures { result ≡ is_over script.now self.now }
    {
        match self.innermost() {
            Some(frame) => script.body(frame.label).len() <= frame.line as usize,
            None => false,
        }
    }

    /// Ends the innermost ones that have no line left.
    pub fn leave_ended(&mut self, script: &Script)
        ensures outward { (x : User) (word : WordValue) → outward script.now x self.new word ≡ outward script.now x self.old word }
        ensures goes_on { is_over script.now self.new ≡ false }
    {
        'bodies: while self.is_over(script) {
            self.leave();
        }
    }
}

impl Default for Bodies {
    fn default() -> Bodies {
        Bodies::new()
    }
}
