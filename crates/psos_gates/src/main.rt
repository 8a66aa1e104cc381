//! Runs scripts of two users as threads, with a gate that holds each of them where the other can go on only if no lock
//! is shared that need not be, and prints what each run wrote, and whether a hold had no end.
#![tactic(auto)]

mod pair;
mod requests;

use pair::Pair;
use psos_io::{MemSink, MemSource, NoStore, StdSink, put_all};
use psos_text::put_number;
use psos_top::run_call;
use requests::{RECV, REQUESTS, Request, WRITE};
use std::alloc::{AllocError, Global};
use std::process::ExitCode;
use std::sync::Wait;
use std::thread::Threads;

// The script: alice asks the one, and bob the other.
fn script(alloc: Global, alice: &Request, bob: &Request) -> Result<Vec<u8>, AllocError> {
    let mut text = Vec::new(alloc);
    text.extend_from_slice(b"user alice\n")?;
    text.extend_from_slice(alice.line)?;
    text.extend_from_slice(b"\nuser bob\n")?;
    text.extend_from_slice(bob.line)?;
    text.extend_from_slice(b"\n")?;
    Ok(text)
}

// One run: which levels its gate holds users at, what it wrote, and whether a hold had no end.
fn put_run<R: Threads + Wait + Sync>(
    rt: &R,
    alloc: Global,
    out: &mut Vec<u8>,
    alice: &Request,
    bob: &Request,
) -> Result<(), AllocError> {
    let mut input = MemSource::new(script(alloc, alice, bob)?, 1000, Vec::new(alloc));
    let mut output = MemSink::new(1000, Vec::new(alloc));
    output.reserve(alloc, 1000)?;
    let gate = Pair::new(alice.level, bob.level);
    run_call(
        rt,
        alloc,
        32,
        &mut input,
        &mut output,
        NoStore::new(),
        &gate,
    );
    out.extend_from_slice(b"levels ")?;
    put_number(alloc, out, u64::from(alice.level))?;
    out.extend_from_slice(b" and ")?;
    put_number(alloc, out, u64::from(bob.level))?;
    out.extend_from_slice(if gate.is_late() {
        b": held to the end\n"
    } else {
        b"\n"
    })?;
    out.extend_from_slice(output.bytes())
}

// Whether two requests need no common lock.
fn are_apart(alice: &Request, bob: &Request) -> bool {
    alice.level != bob.level && !(alice.level == 10 && bob.level == 11)
}

// All runs.
fn runs<R: Threads + Wait + Sync>(rt: &R, alloc: Global) -> Result<Vec<u8>, AllocError> {
    let mut out = Vec::new(alloc);
    put_run(rt, alloc, &mut out, &RECV, &WRITE)?;
    put_run(rt, alloc, &mut out, &RECV, &RECV)?;
    'alice: for alice in &REQUESTS {
        'bob: for bob in &REQUESTS {
            if are_apart(alice, bob) {
                put_run(rt, alloc, &mut out, alice, bob)?;
            }
        }
    }
    Ok(out)
}

fn main(rt: HostRuntime) -> ExitCode {
    let mut output = StdSink::new(rt.stdout());
    let Ok(text) = runs(&rt, rt.alloc()) else {
        return ExitCode::from(6);
    };
    match put_all(&mut output, &text) {
        Ok(()) => ExitCode::from(0),
        Err(_) => ExitCode::from(4),
    }
}
