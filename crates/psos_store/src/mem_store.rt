// A backing store in memory.
ghost use Rattle.std.specs.Prelude.{◌≡◌, ◌≤◌, ◌<◌, length, vec_items, vec_capacity, IfOk, OnOk, IsErr, IsTrue, MatchResult, ◌↔◌};
ghost use Rattle.psos_io.specs.Causes.{HasCause, counted};
ghost use Rattle.psos_io.specs.Calls.{is_listed};
ghost use Rattle.psos_io.specs.Blocks.{block_at, OthersStay, IsBlocks};
ghost use Rattle.psos_store.specs.MemoryBlocks.{zero_blocks, memory_blocks};

use psos_io::{Failed, Store};
use std::alloc::{AllocError, Global};

// How many blocks a store has.
const BLOCKS: usize = 4168;

/// A backing store in memory (docs/levels.md, "The backing store"). All its blocks are zero at first. It fails in the
/// calls that a list names, counted from 1, and in no other; a call that fails changes no block.
///
/// Nothing of its memory is touched before it is written: a write touches it up to its block. The count of calls stays
/// at 2^64 - 1 when it is there.
#[derive(Drop)]
pub struct MemStore {
    // The first blocks. Those behind them are zero.
    first: Vec<[u8; 1032]>,
    fails: Vec<u64>,
    calls: u64,
    faults: u64,
    ghost room: { 4168 ≤ vec_capacity first },
    ghost few: { length (vec_items first) ≤ 4168 },
    ghost sized: { IsBlocks (memory_blocks (vec_items first)) },
}

impl MemStore {
    ghost use Rattle.psos_store.specs.MemStore.{store_blocks, store_fails, store_calls, store_faults};

    /// All blocks zero. The calls that `fails` names will fail; with an empty list none does. All memory is taken here:
    /// room for 4,168 blocks of 1,032 bytes, 4,301,376 bytes. `Err` only where memory runs out: the list goes.
    pub fn new(alloc: Global, fails: Vec<u64>) -> Result<MemStore, AllocError>
        ensures zero { IfOk result (λ s. store_blocks s ≡ zero_blocks 4168) }
        ensures fails { IfOk result (λ s. store_fails s ≡ vec_items fails) }
        ensures calls { IfOk result (λ s. store_calls s ≡ 0) }
        ensures faults { IfOk result (λ s. store_faults s ≡ 0) }
    {
        Ok(MemStore {
            first: Vec::with_capacity(alloc, BLOCKS)?,
            fails,
            calls: 0,
            faults: 0,
        })
    }

    // Counts a call, and tells whether it fails.
    fn is_failing(&mut self) -> bool
        ensures blocks { self.new.first ≡ self.old.first }
        ensures fails { self.new.fails ≡ self.old.fails }
        ensures calls { self.new.calls ≡ counted self.old.calls }
        ensures faults { self.new.faults ≡ self.old.faults }
        ensures listed { result ≡ is_listed (vec_items self.old.fails) (counted self.old.calls) }
    {
        self.calls = self.calls.saturating_add(1);
        self.fails.contains(&self.calls)
    }

    // Makes sure that so many blocks are among the first.
    fn reach(&mut self, count: usize)
        requires { count ≤ 4168 }
        ensures blocks { memory_blocks (vec_items self.new.first) ≡ memory_blocks (vec_items self.old.first) }
        ensures long { count ≤ length (vec_items self.new.first) }
        ensures fails { self.new.fails ≡ self.old.fails }
        ensures calls { self.new.calls ≡ self.old.calls }
        ensures faults { self.new.faults ≡ self.old.faults }
    {
        'grow: while self.first.len() < count {
            self.first.push_reserved([0; 1032]);
        }
    }
}

impl Store for MemStore {
    ghost use Rattle.psos_store.specs.MemStore.{store_blocks, store_fails, store_calls, store_faults};

    ghost blocks = { λ s. store_blocks s };

    ghost faults = { λ s. store_faults s };

    fn read(&mut self, block: u16, out: &mut [u8; 1032]) -> Result<(), Failed>
        requires { block < 4168 }
        ensures given { OnOk result (out.new ≡ block_at (store_blocks self.old) block) }
        ensures kept { store_blocks self.new ≡ store_blocks self.old }
        ensures cause { HasCause (store_faults self.old) (store_faults self.new) result }
        ensures listed { IsErr result ↔ IsTrue (is_listed (store_fails self.old) (counted (store_calls self.old))) }
        ensures calls { store_calls self.new ≡ counted (store_calls self.old) }
        ensures fails { store_fails self.new ≡ store_fails self.old }
    {
        if self.is_failing() {
            self.faults = self.faults.saturating_add(1);
            return Err(Failed);
        }
        if (block as usize) < self.first.len() {
            *out = self.first[block as usize];
        } else {
            out.fill(0);
        }
        Ok(())
    }

    fn write(&mut self, block: u16, from: &[u8; 1032]) -> Result<(), Failed>
        requires { block < 4168 }
        ensures written { OnOk result (block_at (store_blocks self.new) block ≡ from.now) }
        ensures others { OthersStay (store_blocks self.old) (store_blocks self.new) block }
        ensures kept { IsErr result → store_blocks self.new ≡ store_blocks self.old }
        ensures cause { HasCause (store_faults self.old) (store_faults self.new) result }
        ensures listed { IsErr result ↔ IsTrue (is_listed (store_fails self.old) (counted (store_calls self.old))) }
        ensures calls { store_calls self.new ≡ counted (store_calls self.old) }
        ensures fails { store_fails self.new ≡ store_fails self.old }
    {
        if self.is_failing() {
            self.faults = self.faults.saturating_add(1);
            return Err(Failed);
        }
        self.reach(block as usize + 1);
        self.first[block as usize] = *from;
        Ok(())
    }

    fn faults(&self) -> u64 {
        self.faults
    }

    ghost sized = { λ s. s.sized };
}
