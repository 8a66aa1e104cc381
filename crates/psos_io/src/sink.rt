// Where output goes.
ghost use Rattle.std.specs.Prelude.{◌≡◌, ◌<◌, ◌≤◌, ℕ, List, Option, length, IfOk};
ghost use Rattle.std.specs.Io.KnownBytes.{WriteAppends};
ghost use Rattle.psos_io.specs.Causes.{HasCause};

use crate::Failed;

/// Takes bytes in order, with a count of the writes that failed.
pub trait Sink {
    /// The bytes that it took, where it tells them.
    ghost took: { Self → Option (List ℕ) };

    /// How many calls failed so far.
    ghost faults: { Self → ℕ };

    /// Takes a front of the piece, and answers its length: at least one byte, where the piece has one.
    ///
    /// After `Failed` none was taken, and the count of faults has risen.
    fn write(&mut self, piece: &[u8]) -> Result<usize, Failed>
        ensures bound { IfOk result (λ n. n ≤ length piece.now) }
        ensures some { 0 < length piece.now → IfOk result (λ n. 0 < n) }
        ensures bytes { WriteAppends (took self.old) (took self.new) result piece.now }
        ensures cause { HasCause (faults self.old) (faults self.new) result };

    /// How many calls failed so far. It never falls, and stays at 2^64 - 1 when it is there.
    fn faults(&self) -> u64
        ensures { result ≡ faults self.now };
}
