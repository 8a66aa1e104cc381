//! Runs the command `serial` on one script with a source that fails in each of its calls in turn, and then with such a sink,
//! and on the script that comes on standard input with such a store, as `turns` and `run` are run too; then scripts that
//! write and read pages in turn, with a store that fails in its last call, and behind it; and prints how each run ends.
#![tactic(auto)]

mod end;
mod scripts;

use end::{End, put};
use psos_io::{MemSink, MemSource, NoGate, StdSink, StdSource, put_all, read_all};
use psos_store::MemStore;
use psos_top::{run_call, serial_call, turns_call};
use scripts::{one_user, three_users};
use std::alloc::{AllocError, Global};
use std::process::ExitCode;
use std::sync::Wait;
use std::thread::Threads;

const SCRIPT: &[u8] = b"user alice\nmint r4\n";

// Calls of the source, the last of which finds the end, and one more.
const READS: u64 = 21;

// Bytes of the output, one a call, and one more.
const WRITES: u64 = 38;

// Calls of the store over eight frames, and one more.
const STORE_CALLS: u64 = 19;

// How a script is run.
#[derive(Clone, Copy)]
enum Way {
    // Serially, over eight frames.
    Serial,
    // Serially, over as many frames as there can be.
    SerialInAll,
    // In turns, over eight frames.
    Turns,
    // In turns, over as many frames as there can be.
    TurnsInAll,
    // By threads, over eight frames.
    Threads,
}

// The call that fails.
fn failing(alloc: Global, call: u64) -> Result<Vec<u64>, AllocError> {
    let mut calls = Vec::new(alloc);
    calls.push(call)?;
    Ok(calls)
}

// Runs a script over a store in which these calls fail. The contracts of the commands are looked at here alone, and what
// they give is dropped here.
fn run<R: Threads + Wait + Sync>(
    rt: &R,
    alloc: Global,
    way: Way,
    script: &[u8],
    input: &mut MemSource,
    output: &mut MemSink,
    fails: Vec<u64>,
) -> Result<End, AllocError> {
    let store = MemStore::new(alloc, fails)?;
    let outcome = match way {
        Way::Serial => serial_call(alloc, 8, input, output, store),
        Way::SerialInAll => serial_call(alloc, 256, input, output, store),
        Way::Turns => turns_call(alloc, 8, 5, input, output, store),
        Way::TurnsInAll => turns_call(alloc, 256, 5, input, output, store),
        Way::Threads => run_call(rt, alloc, 8, input, output, store, &NoGate),
    };
    End::of(alloc, script, &outcome, output.bytes())
}

// The serial run over a source and a sink, with the number of the call that fails.
fn put_run<R: Threads + Wait + Sync>(
    rt: &R,
    alloc: Global,
    out: &mut Vec<u8>,
    name: &[u8],
    call: u64,
    input: &mut MemSource,
    output: &mut MemSink,
) -> Result<(), AllocError> {
    output.reserve(alloc, 1000)?;
    let none = Vec::new(alloc);
    let end = run(rt, alloc, Way::Serial, SCRIPT, input, output, none)?;
    put(alloc, out, name, call)?;
    end.put(alloc, out, output.bytes())
}

// The run in which this call of the source fails. It gives one byte a call.
fn read_fails<R: Threads + Wait + Sync>(
    rt: &R,
    alloc: Global,
    out: &mut Vec<u8>,
    call: u64,
) -> Result<(), AllocError> {
    let mut input = MemSource::new(SCRIPT.to_vec(alloc)?, 1, failing(alloc, call)?);
    let mut output = MemSink::new(4, Vec::new(alloc));
    put_run(rt, alloc, out, b"read ", call, &mut input, &mut output)
}

// The run in which this call of the sink fails. It takes one byte a call.
fn write_fails<R: Threads + Wait + Sync>(
    rt: &R,
    alloc: Global,
    out: &mut Vec<u8>,
    call: u64,
) -> Result<(), AllocError> {
    let mut input = MemSource::new(SCRIPT.to_vec(alloc)?, 4, Vec::new(alloc));
    let mut output = MemSink::new(1, failing(alloc, call)?);
    put_run(rt, alloc, out, b"write ", call, &mut input, &mut output)
}

// How the run of a script ends in which this call of the store fails.
fn store_fails<R: Threads + Wait + Sync>(
    rt: &R,
    alloc: Global,
    way: Way,
    script: &[u8],
    call: u64,
) -> Result<Vec<u8>, AllocError> {
    let mut input = MemSource::new(script.to_vec(alloc)?, 4096, Vec::new(alloc));
    let mut output = MemSink::new(4096, Vec::new(alloc));
    output.reserve(alloc, 4096)?;
    let fails = failing(alloc, call)?;
    let end = run(rt, alloc, way, script, &mut input, &mut output, fails)?;
    let mut out = Vec::new(alloc);
    put(alloc, &mut out, b"store ", call)?;
    end.put(alloc, &mut out, output.bytes())?;
    Ok(out)
}

// Whether a run ends as the serial one.
fn put_same(out: &mut Vec<u8>, name: &[u8], serial: &[u8], other: &[u8]) -> Result<(), AllocError> {
    out.extend_from_slice(name)?;
    out.extend_from_slice(if other == serial {
        b"the same\n"
    } else {
        b"otherwise\n"
    })
}

// The runs of a script in which this call of the store fails: serially, in turns and by threads.
fn put_ways<R: Threads + Wait + Sync>(
    rt: &R,
    alloc: Global,
    out: &mut Vec<u8>,
    script: &[u8],
    call: u64,
) -> Result<(), AllocError> {
    let serial = store_fails(rt, alloc, Way::Serial, script, call)?;
    let turns = store_fails(rt, alloc, Way::Turns, script, call)?;
    let threads = store_fails(rt, alloc, Way::Threads, script, call)?;
    out.extend_from_slice(&serial)?;
    put_same(out, b"in turns ", &serial, &turns)?;
    put_same(out, b"by threads ", &serial, &threads)
}

// All runs, those in which each call of the store fails in turn of this script.
fn runs<R: Threads + Wait + Sync>(
    rt: &R,
    alloc: Global,
    pages: &[u8],
) -> Result<Vec<u8>, AllocError> {
    let mut out = Vec::new(alloc);
    'reads: for call in 1..READS + 1 {
        read_fails(rt, alloc, &mut out, call)?;
    }
    'writes: for call in 1..WRITES + 1 {
        write_fails(rt, alloc, &mut out, call)?;
    }
    'calls: for call in 1..STORE_CALLS + 1 {
        put_ways(rt, alloc, &mut out, pages, call)?;
    }
    out.extend_from_slice(&store_fails(rt, alloc, Way::SerialInAll, pages, 1)?)?;
    Ok(out)
}

// The runs of scripts that have just so many calls of the store.
fn counts<R: Threads + Wait + Sync>(
    rt: &R,
    alloc: Global,
    out: &mut Vec<u8>,
) -> Result<(), AllocError> {
    let one = one_user(alloc)?;
    out.extend_from_slice(&store_fails(rt, alloc, Way::Serial, &one, 10)?)?;
    out.extend_from_slice(&store_fails(rt, alloc, Way::Serial, &one, 11)?)?;
    let three = three_users(alloc)?;
    out.extend_from_slice(&store_fails(rt, alloc, Way::Turns, &three, 53)?)?;
    out.extend_from_slice(&store_fails(rt, alloc, Way::Turns, &three, 54)?)?;
    out.extend_from_slice(&store_fails(rt, alloc, Way::TurnsInAll, &three, 1)?)
}

// What the program prints.
fn text<R: Threads + Wait + Sync>(
    rt: &R,
    alloc: Global,
    pages: &[u8],
) -> Result<Vec<u8>, AllocError> {
    let mut out = runs(rt, alloc, pages)?;
    counts(rt, alloc, &mut out)?;
    Ok(out)
}

fn main(rt: HostRuntime) -> ExitCode {
    let mut output = StdSink::new(rt.stdout());
    let Ok(pages) = read_all(rt.alloc(), &mut StdSource::new(rt.stdin())) else {
        return ExitCode::from(3);
    };
    let Ok(text) = text(&rt, rt.alloc(), &pages) else {
        return ExitCode::from(6);
    };
    match put_all(&mut output, &text) {
        Ok(()) => ExitCode::from(0),
        Err(_) => ExitCode::from(4),
    }
}
