// The backing store.
ghost use Rattle.std.specs.Prelude.{◌≡◌, ◌<◌, ℕ, List, OnOk};
ghost use Rattle.psos_io.specs.Causes.{HasCause};
ghost use Rattle.psos_io.specs.Blocks.{block_at, OthersStay, IsBlocks};

use crate::Failed;

/// A backing store of 4,168 blocks of 1,032 bytes, with a count of the calls that failed.
pub trait Store: Drop {
    /// Its blocks.
    ghost blocks: { Self → List (List ℕ) };

    /// How many calls failed so far.
    ghost faults: { Self → ℕ };

    /// Gives a block, and changes none. The block is below 4,168.
    ///
    /// After `Failed` the count of faults has risen, and `out` holds any bytes.
    fn read(&mut self, block: u16, out: &mut [u8; 1032]) -> Result<(), Failed>
        requires { block < 4168 }
        ensures given { OnOk result (out.new ≡ block_at (blocks self.old) block) }
        ensures kept { blocks self.new ≡ blocks self.old }
        ensures cause { HasCause (faults self.old) (faults self.new) result };

    /// Replaces a block, and no other. The block is below 4,168.
    ///
    /// After `Failed` the count of faults has risen, and that block holds any bytes; the others are unchanged.
    fn write(&mut self, block: u16, from: &[u8; 1032]) -> Result<(), Failed>
        requires { block < 4168 }
        ensures written { OnOk result (block_at (blocks self.new) block ≡ from.now) }
        ensures others { OthersStay (blocks self.old) (blocks self.new) block }
        ensures cause { HasCause (faults self.old) (faults self.new) result };

    /// How many calls failed so far. It never falls, and stays at 2^64 - 1 when it is there.
    fn faults(&self) -> u64
        ensures { result ≡ faults self.now };

    /// A store always has all its blocks, each of its length.
    ghost sized: { (store : Self) → IsBlocks (blocks store) };
}
