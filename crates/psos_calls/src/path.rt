// A process's name space.
ghost use Rattle.std.specs.Prelude.{◌≡◌, ◌<◌, ◌≤◌, [], ◌∷◌, ◌++◌, length, slice_get, Some};
ghost use Rattle.psos_limits.specs.declared.TheConstants.{MOST_PATH};

use arrayvec::ArrayVec;
use psos_caps::Cap;
use psos_limits::MOST_PATH;
use psos_words::Word;
use std::marker::Model;

/// The directories of a name space, in order: at most four capabilities. It is seen as their list.
#[derive(Drop)]
pub struct Path {
    // Each of them is a capability.
    words: ArrayVec<Word, MOST_PATH>,
}

impl Model for Path {
    ghost use Rattle.std.specs.Prelude.{List, ◌≡◌, length};
    ghost use Rattle.psos_caps.specs.Capability.{Capability};
    ghost use Rattle.psos_calls.specs.Language.Capabilities.{capabilities};

    ghost Value = { List Capability };

    ghost view = { λ p. capabilities p.words.items };

    ghost invariant = { λ p. length (capabilities p.words.items) ≡ length p.words.items };
}

impl Path {
    /// No directory.
    pub fn new() -> Path
        ensures { result ≡ [] }
    {
        Path {
            words: ArrayVec::new(),
        }
    }

    /// How many there are.
    pub fn len(&self) -> usize
        ensures count { result ≡ length self.now }
        ensures few { result ≤ MOST_PATH }
    {
        self.words.len()
    }

    /// Directory i, counted from 0.
    pub fn get(&self, i: usize) -> Cap
        requires { i < length self.now }
        ensures { slice_get self.now i ≡ Some result }
    {
        match self.words[i] {
            Word::Cap(cap) => cap,
            Word::Data(_) => unreachable!(),
        }
    }

    /// One more at the end. There is room for four.
    pub fn push(&mut self, cap: Cap)
        requires { length self.old < MOST_PATH }
        ensures { self.new ≡ self.old ++ cap ∷ [] }
    {
        self.words.push(Word::Cap(cap));
    }
}

impl Default for Path {
    fn default() -> Path {
        Path::new()
    }
}
