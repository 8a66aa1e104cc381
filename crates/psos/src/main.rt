//! A simulated capability system: a script on standard input is run as the words say, and what its users were answered is printed.
#![tactic(auto)]

use psos_io::{NoGate, StdSink, StdSource};
use psos_store::MemStore;
use psos_top::psos_program;
use std::env;
use std::process::ExitCode;

// The backing store lies in memory. Where there is no room for it the status is 6, and nothing is printed.
fn main(rt: HostRuntime) -> ExitCode {
    let alloc = rt.alloc();
    let Ok(store) = MemStore::new(alloc, Vec::new(alloc)) else {
        return ExitCode::from(6);
    };
    let mut input = StdSource::new(rt.stdin());
    let mut output = StdSink::new(rt.stdout());
    psos_program(
        &rt,
        alloc,
        env::args(&rt),
        &mut input,
        &mut output,
        store,
        &NoGate,
    )
}
