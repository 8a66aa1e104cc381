// Output into memory.
ghost use Rattle.std.specs.Prelude.{◌≡◌, ◌-◌, ◌<◌, ◌≤◌, ◌↔◌, [], Some, length, min, max, vec_len, IsOk, IfOk, IsFalse, OnOk, OnErr, MatchResult};
ghost use Rattle.std.specs.Io.KnownBytes.{WriteAppends};
ghost use Rattle.psos_io.specs.Causes.{HasCause, counted};
ghost use Rattle.psos_io.specs.Calls.{is_listed};

use crate::{Failed, Sink};
use std::alloc::{AllocError, Global};

/// Takes bytes into memory that is reserved beforehand, at most so many a call.
///
/// It fails in the calls that are listed, counted from 1, and in a call that would take more than the room that is
/// left. A write takes no memory. The count of calls stays at 2^64 - 1 when it is there.
#[derive(Drop)]
pub struct MemSink {
    // The room that was made, and how many bytes of it are taken.
    bytes: Vec<u8>,
    at: usize,
    most: usize,
    fails: Vec<u64>,
    calls: u64,
    faults: u64,
    ghost within: { at ≤ vec_len bytes },
    ghost takes: { 1 ≤ most },
}

impl MemSink {
    ghost use Rattle.psos_io.specs.MemSink.{sink_took, sink_room, sink_most, sink_fails, sink_calls, sink_faults};

    /// An empty sink with no room, that takes at most `most` bytes a call and fails in the calls that `fails` names.
    ///
    /// `most` is at least 1. With an empty list no call fails that has room.
    pub fn new(most: usize, fails: Vec<u64>) -> MemSink
        requires { 1 ≤ most }
        ensures took { sink_took result ≡ [] }
        ensures room { sink_room result ≡ 0 }
        ensures most { sink_most result ≡ most }
        ensures fails { sink_fails result ≡ fails.items }
        ensures calls { sink_calls result ≡ 0 }
        ensures faults { sink_faults result ≡ 0 }
    {
        MemSink {
            bytes: Vec::new(*fails.allocator()),
            at: 0,
            most,
            fails,
            calls: 0,
            faults: 0,
        }
    }

    /// Makes room for `n` bytes more, and takes no memory where there is that room. A refusal changes nothing.
    pub fn reserve(&mut self, _alloc: Global, n: usize) -> Result<(), AllocError>
        ensures took { sink_took self.new ≡ sink_took self.old }
        ensures room { MatchResult result
            (λ _. sink_room self.new ≡ max (sink_room self.old) n)
            (λ _. sink_room self.new ≡ sink_room self.old) }
        ensures refused { OnErr result (sink_room self.old < n) }
        ensures most { sink_most self.new ≡ sink_most self.old }
        ensures fails { sink_fails self.new ≡ sink_fails self.old }
        ensures calls { sink_calls self.new ≡ sink_calls self.old }
        ensures faults { sink_faults self.new ≡ sink_faults self.old }
    {
        let Some(end) = self.at.checked_add(n) else {
            return Err(AllocError);
        };
        if end <= self.bytes.len() {
            return Ok(());
        }
        self.bytes.resize(end, 0)
    }

    /// The bytes taken so far.
    pub fn bytes(&self) -> &[u8]
        ensures { result.now ≡ sink_took self.now }
    {
        &self.bytes[..self.at]
    }
}

impl Sink for MemSink {
    ghost use Rattle.psos_io.specs.MemSink.{sink_took, sink_room, sink_most, sink_fails, sink_calls, sink_faults};

    ghost took = { λ s. Some (sink_took s) };

    ghost faults = { λ s. sink_faults s };

    fn write(&mut self, piece: &[u8]) -> Result<usize, Failed>
        ensures bound { IfOk result (λ n. n ≤ length piece.now) }
        ensures some { 0 < length piece.now → IfOk result (λ n. 0 < n) }
        ensures bytes { WriteAppends (Some (sink_took self.old)) (Some (sink_took self.new))
            result piece.now }
        ensures cause { HasCause (sink_faults self.old) (sink_faults self.new) result }

        // It takes a front of `most` bytes, or the whole piece where that is shorter. It fails where
        // the call is listed or there is no room for that, and in no other call.
        ensures taken { IsOk result ↔
            (IsFalse (is_listed (sink_fails self.old) (counted (sink_calls self.old)))
            × (min (length piece.now) (sink_most self.old) ≤ sink_room self.old)) }
        ensures never { sink_fails self.old ≡ [] →
            min (length piece.now) (sink_most self.old) ≤ sink_room self.old → IsOk result }
        ensures count { IfOk result (λ n. n ≡ min (length piece.now) (sink_most self.old)) }
        ensures room { MatchResult result
            (λ n. sink_room self.new ≡ sink_room self.old - n)
            (λ _. sink_room self.new ≡ sink_room self.old) }
        ensures faults { MatchResult result
            (λ _. sink_faults self.new ≡ sink_faults self.old)
            (λ _. sink_faults self.new ≡ counted (sink_faults self.old)) }
        ensures calls { sink_calls self.new ≡ counted (sink_calls self.old) }
        ensures fails { sink_fails self.new ≡ sink_fails self.old }
        ensures most { sink_most self.new ≡ sink_most self.old }
    {
        self.calls = self.calls.saturating_add(1);
        let count = piece.len().min(self.most);
        let room = self.bytes.len() - self.at;
        if self.fails.contains(&self.calls) || room < count {
            self.faults = self.faults.saturating_add(1);
            return Err(Failed);
        }
        self.bytes[self.at..self.at + count].copy_from_slice(&piece[..count]);
        self.at += count;
        Ok(count)
    }

    fn faults(&self) -> u64 {
        self.faults
    }
}
