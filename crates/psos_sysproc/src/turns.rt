// Whose turn it is.
ghost use Rattle.std.specs.Prelude.{◌≡◌, ◌%◌, ◌<◌, ◌≤◌};
ghost use Rattle.psos_text.specs.Draws.{first_draw, next_draw};

use std::marker::Model;

/// The generator of draws (docs/program.md, "Turns"). It is seen as the last value that was drawn, which is below
/// 65,536, as each is.
#[derive(Drop)]
pub struct Turns {
    drawn: u32,
}

impl Model for Turns {
    ghost use Rattle.std.specs.Prelude.{ℕ, ◌<◌};

    ghost Value = { ℕ };

    ghost view = { λ t. t.drawn };

    ghost invariant = { λ t. t.drawn < 65536 };
}

impl Turns {
    /// Nothing is drawn yet.
    pub fn new(seed: u64) -> Turns
        ensures { result ≡ first_draw seed }
    {
        Turns {
            drawn: (seed % 65_536) as u32,
        }
    }

    /// Draws the next value.
    pub fn draw(&mut self) -> u16
        ensures drawn { self.new ≡ next_draw self.old }
        ensures told { result ≡ next_draw self.old }
    {
        self.drawn = (75 * self.drawn + 74) % 65_537;
        self.drawn as u16
    }

    /// Draws the next value, and answers which of so many users it chooses.
    pub fn pick(&mut self, among: u8) -> u8
        requires { 1 ≤ among }
        ensures drawn { self.new ≡ next_draw self.old }
        ensures chosen { result ≡ next_draw self.old % among }
    {
        (self.draw() % u16::from(among)) as u8
    }
}
