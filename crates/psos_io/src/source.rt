// Where input comes from.
ghost use Rattle.std.specs.Prelude.{◌≡◌, ℕ, List, Option};
ghost use Rattle.std.specs.Io.{ReadsAtMost};
ghost use Rattle.std.specs.Io.KnownBytes.{ReadConsumes};
ghost use Rattle.psos_io.specs.Causes.{HasCause};

use crate::Failed;

/// A stream of bytes that are read once, in order, with a count of the reads that failed.
pub trait Source {
    /// The bytes that it still holds, where it tells them.
    ghost left: { Self → Option (List ℕ) };

    /// How many calls failed so far.
    ghost faults: { Self → ℕ };

    /// Gives the next bytes at the front of the buffer, and answers how many: at most the buffer's length.
    ///
    /// A buffer that is not empty gets at least one byte, except at the end of input, where the answer is 0.
    /// Where the source told its bytes before, those given are the first of these, and it then tells the rest.
    /// After `Failed` it holds the bytes that it held, and the count of faults has risen.
    fn read(&mut self, buf: &mut [u8]) -> Result<usize, Failed>
        ensures bound { ReadsAtMost result buf.new }
        ensures bytes { ReadConsumes (left self.old) (left self.new) result buf.new }
        ensures cause { HasCause (faults self.old) (faults self.new) result };

    /// How many calls failed so far. It never falls, and stays at 2^64 - 1 when it is there.
    fn faults(&self) -> u64
        ensures { result ≡ faults self.now };
}
