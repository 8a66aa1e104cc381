// The words of a line.
ghost use Rattle.std.specs.Prelude.{◌≡◌, [], ◌∷◌, IfNone, IfSome};
ghost use Rattle.psos_text.specs.Lines.{words_of};
ghost use Rattle.psos_text.specs.Tokens.{left, StandsAt};

use crate::finds::first_word;
use std::marker::Model;

/// The words of a line, from left to right: its longest pieces without a space (byte 32), none of them empty. It is
/// seen as the line, and the place up to which the words are taken.
#[derive(Drop)]
pub struct Tokens<'a> {
    line: &'a [u8],
    at: usize,
}

impl<'a> Model for Tokens<'a> {
    ghost use Rattle.std.specs.Prelude.{◌≤◌, length};
    ghost use Rattle.psos_text.specs.Tokens.{Cursor};

    ghost Value = { Cursor };

    ghost view = { λ t. record { line = t.line.now; at = t.at } };

    ghost invariant = { λ t. t.at ≤ length t.line.now };
}

impl<'a> Tokens<'a> {
    /// The words of this line, none of them taken.
    pub fn new(line: &'a [u8]) -> Tokens<'a>
        ensures { result ≡ record { line = line.now; at = 0 } }
    {
        Tokens { line, at: 0 }
    }

    /// The next word and its place, counted in bytes from the front of the line. None exactly where only spaces, or
    /// nothing, are left of the line. A caller that calls until None gets all words of the line, in order.
    pub fn next(&mut self) -> Option<(usize, &'a [u8])>
        ensures line { self.new.line ≡ self.old.line }
        ensures none { IfNone result (words_of (left self.old) ≡ []) }
        ensures done { IfNone result (self.new ≡ self.old) }
        ensures some { IfSome result (λ p. words_of (left self.old) ≡ p.1.now ∷ words_of (left self.new)) }
        ensures place { IfSome result (λ p. StandsAt self.old self.new p.0 p.1.now) }
    {
        let (_, rest) = self.line.split_at(self.at);
        let (skipped, size) = first_word(rest)?;
        let place = self.at + skipped;
        let (_, rest) = self.line.split_at(place);
        let (word, _) = rest.split_at(size);
        self.at = place + size;
        Some((place, word))
    }
}
