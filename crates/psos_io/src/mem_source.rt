// Input from memory.
ghost use Rattle.std.specs.Prelude.{◌≡◌, ◌≤◌, ◌↔◌, [], Some, length, min, vec_len, IsOk, IsErr, IfOk, IsTrue, MatchResult};
ghost use Rattle.std.specs.Io.{ReadsAtMost};
ghost use Rattle.std.specs.Io.KnownBytes.{ReadConsumes};
ghost use Rattle.psos_io.specs.Causes.{HasCause, counted};
ghost use Rattle.psos_io.specs.Calls.{is_listed};

use crate::{Failed, Source};

/// Bytes in memory. It gives at most so many a call, and fails in the calls that are listed, counted from 1.
///
/// The count of calls stays at 2^64 - 1 when it is there.
#[derive(Drop)]
pub struct MemSource {
    bytes: Vec<u8>,
    at: usize,
    most: usize,
    fails: Vec<u64>,
    calls: u64,
    faults: u64,
    ghost within: { at ≤ vec_len bytes },
    ghost gives: { 1 ≤ most },
}

impl MemSource {
    ghost use Rattle.psos_io.specs.MemSource.{source_left, source_most, source_fails, source_calls, source_faults};

    /// A source of these bytes, that gives at most `most` of them a call and fails in the calls that `fails` names.
    ///
    /// `most` is at least 1. With an empty list no call fails.
    pub fn new(bytes: Vec<u8>, most: usize, fails: Vec<u64>) -> MemSource
        requires { 1 ≤ most }
        ensures left { source_left result ≡ bytes.items }
        ensures most { source_most result ≡ most }
        ensures fails { source_fails result ≡ fails.items }
        ensures calls { source_calls result ≡ 0 }
        ensures faults { source_faults result ≡ 0 }
    {
        MemSource {
            bytes,
            at: 0,
            most,
            fails,
            calls: 0,
            faults: 0,
        }
    }
}

impl Source for MemSource {
    ghost use Rattle.psos_io.specs.MemSource.{source_left, source_most, source_fails, source_calls, source_faults};

    ghost left = { λ s. Some (source_left s) };

    ghost faults = { λ s. source_faults s };

    fn read(&mut self, buf: &mut [u8]) -> Result<usize, Failed>
        ensures bound { ReadsAtMost result buf.new }
        ensures bytes { ReadConsumes (Some (source_left self.old)) (Some (source_left self.new))
            result buf.new }
        ensures cause { HasCause (source_faults self.old) (source_faults self.new) result }

        // It fails in the listed calls and in no other, so never where none is listed.
        ensures listed { IsErr result ↔
            (IsTrue (is_listed (source_fails self.old) (counted (source_calls self.old)))) }
        ensures never { source_fails self.old ≡ [] → IsOk result }
        ensures count { IfOk result (λ n.
            n ≡ min (min (length buf.old) (source_most self.old)) (length (source_left self.old))) }
        ensures faults { MatchResult result
            (λ _. source_faults self.new ≡ source_faults self.old)
            (λ _. source_faults self.new ≡ counted (source_faults self.old)) }
        ensures calls { source_calls self.new ≡ counted (source_calls self.old) }
        ensures fails { source_fails self.new ≡ source_fails self.old }
        ensures most { source_most self.new ≡ source_most self.old }
    {
        self.calls = self.calls.saturating_add(1);
        if self.fails.contains(&self.calls) {
            self.faults = self.faults.saturating_add(1);
            return Err(Failed);
        }
        let (_, rest) = self.bytes.as_slice().split_at(self.at);
        let count = buf.len().min(self.most).min(rest.len());
        buf[..count].copy_from_slice(&rest[..count]);
        self.at += count;
        Ok(count)
    }

    fn faults(&self) -> u64 {
        self.faults
    }
}
