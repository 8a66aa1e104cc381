//! Calls each level's library, and those beside them, with ample memory, and prints what they answer.
#![tactic(auto)]

mod codes;
mod crossing;
mod dirs;
mod guards;
mod life;
mod pages;
mod procs;
mod report;
mod segs;
mod stop;
mod store;
mod sysproc;
mod texts;
mod types;

use psos_io::{StdSink, put_all};
use report::Report;
use std::alloc::Global;
use std::process::ExitCode;
use stop::Stop;

// The lines of all libraries.
fn samples(alloc: Global) -> Result<Vec<u8>, Stop> {
    let mut report = Report::new(alloc);
    store::show(&mut report);
    guards::show(&mut report);
    sysproc::show(&mut report)?;
    pages::show(&mut report)?;
    segs::show(&mut report)?;
    types::show(&mut report)?;
    dirs::show(&mut report)?;
    life::show(&mut report)?;
    procs::show(&mut report)?;
    codes::show(&mut report)?;
    Ok(report.into_text()?)
}

fn main(rt: HostRuntime) -> ExitCode {
    let mut output = StdSink::new(rt.stdout());
    let Ok(text) = samples(rt.alloc()) else {
        return ExitCode::from(6);
    };
    match put_all(&mut output, &text) {
        Ok(()) => ExitCode::from(0),
        Err(_) => ExitCode::from(4),
    }
}
