//! Runs scripts twice, by the plain program over flat objects and by the core over levels, and prints what they say.
//!
//! Scripts stand on standard input, each behind a line `== NAME`. For each, this line is printed, the transcript that
//! the plain program gives, or the number of its lines where they are many, and whether the core gives the same.
//! Behind them it prints what the reader says of scripts at the limits of the language, lines and transcripts of
//! entries that no script has to give, where the capabilities of a run come from, and the counts of `load` on a made
//! script, as the plain program gives them.
#![tactic(auto)]

mod limits;
mod lines;
mod made;
mod origins;
mod parts;
mod runs;
mod transcripts;

use limits::put_limits;
use lines::put_lines;
use made::put_load;
use origins::put_origins;
use parts::next_part;
use psos_io::{StdSink, StdSource, put_all, read_all};
use psos_script::read_script;
use psos_store::MemStore;
use runs::{core_text, flat_text, put_same};
use std::alloc::{AllocError, Global};
use std::process::ExitCode;
use transcripts::put_transcripts;

// How many lines of a transcript are printed at most.
const MOST_LINES: usize = 600;

fn lines_of(text: &[u8]) -> usize {
    let mut lines = 0usize;
    'bytes: for byte in text {
        if *byte == b'\n' {
            lines = lines.saturating_add(1);
        }
    }
    lines
}

// What both say of a script.
fn put_both(alloc: Global, out: &mut Vec<u8>, text: &[u8]) -> Result<(), AllocError> {
    let Ok(script) = read_script(alloc, text) else {
        return out.extend_from_slice(b"no script\n");
    };
    let flat = flat_text(alloc, &script)?;
    let lines = lines_of(&flat);
    if lines <= MOST_LINES {
        out.extend_from_slice(&flat)?;
    } else {
        psos_text::put_number(alloc, out, lines as u64)?;
        out.extend_from_slice(b" lines\n")?;
    }
    let store = MemStore::new(alloc, Vec::new(alloc))?;
    let core = core_text(alloc, script, store)?;
    put_same(out, &flat, &core)
}

// What both say of each script.
fn put_all_parts(alloc: Global, bytes: &[u8]) -> Result<Vec<u8>, AllocError> {
    let mut out = Vec::new(alloc);
    let mut rest = bytes;
    'parts: for _ in 0..bytes.len() {
        let Some((name, text, others)) = next_part(rest) else {
            return Ok(out);
        };
        out.extend_from_slice(name)?;
        out.extend_from_slice(b"\n")?;
        put_both(alloc, &mut out, text)?;
        rest = others;
    }
    Ok(out)
}

// All that is printed.
fn all(alloc: Global, bytes: &[u8]) -> Result<Vec<u8>, AllocError> {
    let mut out = put_all_parts(alloc, bytes)?;
    put_limits(alloc, &mut out)?;
    put_lines(alloc, &mut out)?;
    put_transcripts(alloc, &mut out)?;
    put_origins(alloc, &mut out)?;
    put_load(alloc, &mut out)?;
    Ok(out)
}

fn main(rt: HostRuntime) -> ExitCode {
    let alloc = rt.alloc();
    let mut input = StdSource::new(rt.stdin());
    let mut output = StdSink::new(rt.stdout());
    let Ok(bytes) = read_all(alloc, &mut input) else {
        return ExitCode::from(3);
    };
    let Ok(text) = all(alloc, &bytes) else {
        return ExitCode::from(6);
    };
    match put_all(&mut output, &text) {
        Ok(()) => ExitCode::from(0),
        Err(_) => ExitCode::from(4),
    }
}
