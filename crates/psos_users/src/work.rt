// What one thread does for one user.
ghost use Rattle.std.specs.Prelude.{◌≡◌, ◌+◌, ℕ};

use std::marker::Send;

/// What is done for one user, phase by phase, in a thread that may be another in each phase.
///
/// The phases of a work come in their order and none twice, since `phase` may be called for the next one alone
/// (docs/levels.md, "Phases"). `C` is what all works of a phase share.
pub trait Work<C>: Send {
    /// The number of the next phase.
    ghost next: { Self → ℕ };

    /// How a work after a phase stands to the work before it.
    ghost stands: { Self → Self → Type 0 };

    /// Does the work's part of the next phase. It may wait, and is to return at once where nothing is left to do.
    ///
    /// No phase is the last, so a work that counts them in a field counts in more than 32 bits.
    fn phase(&mut self, scene: &C, phase: u32)
        requires turn { phase ≡ next self.old }
        ensures counted { next self.new ≡ next self.old + 1 }
        ensures stands { stands self.old self.new };
}
