//! Runs journals with ample memory, one of them behind locks, each call on a journal once, and prints what the calls
//! answer. The gate compares that with what is written down.
#![tactic(auto)]

mod behind_locks;
mod last;
mod one_member;
mod two_members;

use std::io;
use std::process::ExitCode;

// The answers on one member, a line each.
fn put_one(rt: &HostRuntime, one: one_member::Answers) -> io::Result<()> {
    println!(rt; "a receipt at first: {}", one.has_receipt)?;
    println!(rt; "stamp: {}", one.stamp)?;
    println!(rt; "stopped: {:?}", one.before)?;
    println!(rt; "stopped first for: {}", one.first)?;
    println!(rt; "stopped again: {}", one.second)?;
    println!(rt; "heard: {:?}", one.heard)?;
    println!(rt; "told: {}", one.is_told)
}

// The answers on two members, a line each.
fn put_two(rt: &HostRuntime, two: two_members::Answers) -> io::Result<()> {
    let calls = two.calls;
    println!(rt; "stamps: {} {}", calls.stamps.0, calls.stamps.1)?;
    println!(rt; "entries: {}", calls.len)?;
    println!(rt; "stamp of the second member: {}", calls.receipt)?;
    println!(rt;
        "an entry after a stop is handed back: {}",
        calls.is_refused
    )?;
    println!(rt; "heard: {:?}", calls.heard)?;
    println!(rt; "told: {} {}", calls.told.0, calls.told.1)?;
    println!(rt; "all entries: {:?}", two.entries.as_slice())
}

fn main(rt: HostRuntime) -> ExitCode {
    let Some(one) = one_member::run(rt.alloc()) else {
        return ExitCode::from(6);
    };
    let Some(two) = two_members::run(rt.alloc()) else {
        return ExitCode::from(6);
    };
    let Some(is_told) = behind_locks::is_told(&rt, rt.alloc()) else {
        return ExitCode::from(6);
    };
    if put_one(&rt, one).is_err() || put_two(&rt, two).is_err() {
        return ExitCode::from(4);
    }
    match println!(rt; "told behind locks: {}", is_told) {
        Ok(()) => ExitCode::from(0),
        Err(_) => ExitCode::from(4),
    }
}
