// The end of a line.
ghost use Rattle.std.specs.Prelude.{◌≡◌, ◌+◌, ◌<◌, ◌≤◌, [], ◌∷◌, ◌++◌, decimal, length};

use itoa::write_digits;
use std::marker::Model;

/// The end of a line, of at most 128 bytes, which holds any line but that of a listing. It is written from its last byte
/// to its first, and is seen as its bytes.
#[derive(Drop)]
pub(crate) struct Tail {
    bytes: [u8; 128],
    at: usize,
}

impl Model for Tail {
    ghost use Rattle.std.specs.Prelude.{ℕ, List, ◌≤◌, drop};

    ghost Value = { List ℕ };

    ghost view = { λ t. drop t.at t.bytes };

    ghost invariant = { λ t. t.at ≤ 128 };
}

impl Tail {
    /// Nothing yet.
    pub fn new() -> Tail
        ensures { result ≡ [] }
    {
        Tail {
            bytes: [0; 128],
            at: 128,
        }
    }

    /// A byte more in front.
    pub fn prepend_byte(&mut self, byte: u8)
        requires { length self.old < 128 }
        ensures bytes { self.new ≡ byte ∷ self.old }
        ensures few { length self.new ≡ length self.old + 1 }
    {
        self.at -= 1;
        self.bytes[self.at] = byte;
    }

    /// A text more in front.
    pub fn prepend(&mut self, text: &[u8])
        requires { length self.old + length text.now ≤ 128 }
        ensures bytes { self.new ≡ text.now ++ self.old }
        ensures few { length self.new ≡ length self.old + length text.now }
    {
        let end = self.at;
        self.at -= text.len();
        self.bytes[self.at..end].copy_from_slice(text);
    }

    /// A number more in front, in decimal digits.
    pub fn prepend_number(&mut self, n: u64)
        requires { length self.old + 20 ≤ 128 }
        ensures bytes { self.new ≡ decimal n ++ self.old }
        ensures few { length self.new ≤ length self.old + 20 }
    {
        self.at = write_digits(n, &mut self.bytes, self.at);
    }

    /// All of it.
    pub fn as_bytes(&self) -> &[u8]
        ensures { result.now ≡ self.now }
    {
        let (_, text) = self.bytes.split_at(self.at);
        text
    }
}
