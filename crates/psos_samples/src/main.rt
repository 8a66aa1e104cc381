//! Calls what tables, counts, texts, directories in words and made scripts offer, each call once and with ample memory,
//! and prints what it gives. The gate compares that with what is written down.
#![tactic(auto)]

mod counts;
mod directories;
mod entry_lists;
mod lines;
mod made_scripts;
mod tables;
mod texts;

use psos_io::{StdSink, put_all};
use std::alloc::{AllocError, Global};
use std::process::ExitCode;

// All lines, the libraries one after another.
fn samples(alloc: Global) -> Result<Vec<u8>, AllocError> {
    let mut out = Vec::new(alloc);
    tables::put_tables(alloc, &mut out)?;
    counts::put_counts(alloc, &mut out)?;
    texts::put_texts(alloc, &mut out)?;
    directories::put_page(alloc, &mut out)?;
    entry_lists::put_lists(alloc, &mut out)?;
    made_scripts::put_script(alloc, &mut out)?;
    Ok(out)
}

fn main(rt: HostRuntime) -> ExitCode {
    let mut output = StdSink::new(rt.stdout());
    let Ok(text) = samples(rt.alloc()) else {
        return ExitCode::from(6);
    };
    match put_all(&mut output, &text) {
        Ok(()) => ExitCode::from(0),
        Err(_) => ExitCode::from(4),
    }
}
