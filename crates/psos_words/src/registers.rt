// The sixteen registers of a process, or of an open body.
ghost use Rattle.std.specs.Prelude.{◌≡◌, ◌<◌, length, slice_set, slice_get, Some};
ghost use Rattle.psos_words.specs.Words.{zeros};

use crate::Word;
use std::marker::Model;

/// Sixteen words, seen as their list.
#[derive(Drop)]
pub struct Registers {
    words: [Word; 16],
}

impl Model for Registers {
    ghost use Rattle.std.specs.Prelude.{List, ◌≡◌, length};
    ghost use Rattle.psos_words.specs.declared.word.Word.{Word};

    ghost Value = { List Word };

    ghost view = { λ r. r.words };

    ghost invariant = { λ r. length r.words ≡ 16 };
}

impl Registers {
    /// All of them data 0.
    pub fn zero() -> Registers
        ensures { result ≡ zeros 16 }
    {
        Registers {
            words: [Word::Data(0); 16],
        }
    }

    /// The word in register i.
    pub fn get(&self, i: u8) -> Word
        requires { i < 16 }
        ensures word { slice_get self.now i ≡ Some result }
        ensures sixteen { length self.now ≡ 16 }
    {
        self.words[i as usize]
    }

    /// Puts a word into register i, and changes no other.
    pub fn set(&mut self, i: u8, w: Word)
        requires { i < 16 }
        ensures words { self.new ≡ slice_set self.old i w }
        ensures sixteen { length self.old ≡ 16 }
    {
        self.words[i as usize] = w;
    }
}

impl Default for Registers {
    ghost use Rattle.std.specs.Prelude.{◌≡◌};
    ghost use Rattle.psos_words.specs.Words.{zeros};

    ghost is_default = { λ r. r ≡ zeros 16 };

    fn default() -> Registers {
        Registers::zero()
    }
}
