// Reading the whole input and writing a whole text, by calls that may give or take little.
ghost use Rattle.std.specs.Prelude.{◌≡◌, ◌≤◌, ◌<◌, length, IfOk, OnOk, OnErr, IsErrOf};
ghost use Rattle.std.specs.Io.KnownBytes.{Appends, Consumes, IsAtEnd};
ghost use Rattle.psos_io.specs.Causes.{Rose};
ghost use Rattle.psos_io.specs.Bytes.{AppendsFront};

use crate::{Failed, Sink, Source};
use psos_limits::MOST_INPUT;
use std::alloc::Global;

/// How many bytes `read_all` reads at most: one more than an input may have.
pub const MOST: usize = MOST_INPUT + 1;

// How many bytes one call asks for.
const PIECE: usize = 4096;

/// Why the input was not read.
#[derive(Clone, Copy, PartialEq, Eq, Debug)]
pub enum InputFault {
    /// A read failed, and the count of the source has risen.
    Failed,
    /// There was no memory for the bytes.
    Memory,
}

/// Reads the input to its end, or to `MOST` bytes. Fewer than that is the whole input.
///
/// After a fault the source has given some bytes, which are lost.
pub fn read_all<I: Source>(alloc: Global, input: &mut I) -> Result<Vec<u8>, InputFault>
    ensures bytes { IfOk result (λ v. Consumes (I.left input.old) (I.left input.new) v.items) }
    ensures bound { IfOk result (λ v. length v.items ≤ 1048577) }
    ensures end { IfOk result (λ v. length v.items < 1048577 → IsAtEnd (I.left input.new)) }
    ensures later { I.faults input.old ≤ I.faults input.new }
    ensures failed { IsErrOf result InputFault.Failed →
        Rose (I.faults input.old) (I.faults input.new) }
{
    let mut bytes = Vec::new(alloc);
    let mut buf = [0u8; PIECE];
    'pieces: while bytes.len() < MOST {
        let want = (MOST - bytes.len()).min(PIECE);
        let Ok(count) = input.read(&mut buf[..want]) else {
            return Err(InputFault::Failed);
        };
        if count == 0 {
            return Ok(bytes);
        }
        if bytes.extend_from_slice(&buf[..count]).is_err() {
            return Err(InputFault::Memory);
        }
    }
    Ok(bytes)
}

/// Writes the whole text. After `Failed` a front of it was written, and the count of the sink has risen.
pub fn put_all<K: Sink>(output: &mut K, text: &[u8]) -> Result<(), Failed>
    ensures whole { OnOk result (Appends (K.took output.old) (K.took output.new) text.now) }
    ensures front { AppendsFront (K.took output.old) (K.took output.new) text.now }
    ensures later { K.faults output.old ≤ K.faults output.new }
    ensures failed { OnErr result (Rose (K.faults output.old) (K.faults output.new)) }
{
    let mut done = 0;
    'pieces: while done < text.len() {
        let (_, rest) = text.split_at(done);
        let count = output.write(rest)?;
        done += count;
    }
    Ok(())
}
