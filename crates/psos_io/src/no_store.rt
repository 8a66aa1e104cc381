// A backing store that is not there.
ghost use Rattle.std.specs.Prelude.{◌≡◌, ◌≤◌, IsErr, OnOk};
ghost use Rattle.psos_io.specs.Causes.{HasCause, counted};
ghost use Rattle.psos_io.specs.Blocks.{block_at, OthersStay};
ghost use Rattle.psos_io.specs.NoStore.{zero_blocks, zero_blocks-sized};

use crate::{Failed, Store};

/// A store whose every call fails and is counted. Its blocks are all zero, and stay so.
#[derive(Drop)]
pub struct NoStore {
    faults: u64,
}

impl NoStore {
    /// No store, that counts from 0.
    pub fn new() -> NoStore
        ensures { ⟦<NoStore as Store>⟧.faults result ≡ 0 }
    {
        NoStore { faults: 0 }
    }

    // One fault more.
    fn failed(&mut self) -> Failed
        ensures later { self.old.faults ≤ self.new.faults }
        ensures counts { self.new.faults ≡ counted self.old.faults }
    {
        self.faults = self.faults.saturating_add(1);
        Failed
    }
}

impl Store for NoStore {
    ghost blocks = { λ _. zero_blocks };

    ghost faults = { λ s. s.faults };

    fn read(&mut self, block: u16, out: &mut [u8; 1032]) -> Result<(), Failed>
        ensures fails { IsErr result }
        ensures counts { self.new.faults ≡ counted self.old.faults }
        ensures given { OnOk result (out.new ≡ block_at zero_blocks block) }
        ensures cause { HasCause self.old.faults self.new.faults result }
    {
        Err(self.failed())
    }

    fn write(&mut self, block: u16, from: &[u8; 1032]) -> Result<(), Failed>
        ensures fails { IsErr result }
        ensures counts { self.new.faults ≡ counted self.old.faults }
        ensures written { OnOk result (block_at zero_blocks block ≡ from.now) }
        ensures others { OthersStay zero_blocks zero_blocks block }
        ensures cause { HasCause self.old.faults self.new.faults result }
    {
        Err(self.failed())
    }

    fn faults(&self) -> u64 {
        self.faults
    }

    ghost sized = { λ _. zero_blocks-sized };
}
