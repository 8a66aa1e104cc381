// The ends of a command.
ghost use Rattle.std.specs.Prelude.{◌≡◌, ◌≤◌, ◌<◌, ◌^◌, ◌++◌, None, Some, IfOk, IfErr, OnOk, ℕ};
ghost use Rattle.std.specs.Io.KnownBytes.{Appends};
ghost use Rattle.psos_model.specs.Text.Output.{calls_of};
ghost use Rattle.psos_print.specs.Pieces.{HasReason};
ghost use Rattle.psos_print.specs.Positions.{entries_text};
ghost use Rattle.psos_top.specs.Outcome.{fault_line, stream, Stream, given_by, Writes, IsNoRun, RunEnds, Ends, StoreIsLeft, StoreEnds};
ghost use Rattle.psos_top.specs.Runs.{HasRead, IsLeftBy, IsStatusOf, LeavesFront, HasPrintedRun};

use crate::Command;
use crate::fault_line::fault_line;
use crate::open_fault::OpenFault;
use crate::outcome::Outcome;
use psos_calls::{Entry, Script};
use psos_core::Parts;
use psos_io::{Sink, Store, put_all};
use psos_journal::{Entries, StopCause};
use psos_print::{PrintFault, done_line, put_transcript};
use psos_script::ScriptFault;
use std::alloc::Global;

/// An end without a run, where so many calls of the store had failed.
pub fn no_run<B: Store>(alloc: Global, status: u8, store_faults: u64) -> Outcome<B>
    ensures status { result.status ≡ status }
    ensures none { IsNoRun result.entries result.levels }
    ensures levels { result.levels ≡ None }
    ensures store { result.store ≡ None }
    ensures store_faults { result.store_faults ≡ store_faults }
{
    Outcome {
        status,
        entries: Entries::empty(alloc),
        levels: None,
        store: None,
        store_faults,
    }
}

/// A line in place of a run. A failing write leaves the status and cuts the line.
pub fn stop<K: Sink, B: Store>(
    alloc: Global,
    output: &mut K,
    status: u8,
    text: &[u8],
    store_faults: u64,
) -> Outcome<B>
    ensures status { result.status ≡ status }
    ensures none { IsNoRun result.entries result.levels }
    ensures wrote { Writes (stream K.took K.faults output.old output.new) text.now }
    ensures later { K.faults output.old ≤ K.faults output.new }
    ensures levels { result.levels ≡ None }
    ensures store { result.store ≡ None }
    ensures store_faults { result.store_faults ≡ store_faults }
{
    let _ = put_all(output, text);
    no_run(alloc, status, store_faults)
}

// The line of the first fault of a script, in place of a run.
fn refuse<K: Sink, B: Store>(
    alloc: Global,
    output: &mut K,
    fault: ScriptFault,
    store_faults: u64,
) -> Outcome<B>
    ensures status { result.status ≡ 2 }
    ensures none { IsNoRun result.entries result.levels }
    ensures wrote { Writes (stream K.took K.faults output.old output.new) (fault_line fault.line fault.cause) }
    ensures later { K.faults output.old ≤ K.faults output.new }
    ensures levels { result.levels ≡ None }
    ensures store { result.store ≡ None }
    ensures store_faults { result.store_faults ≡ store_faults }
{
    stop(alloc, output, 2, &fault_line(fault), store_faults)
}

// Writes the transcript of entries, and then a line.
fn put_behind<K: Sink>(
    alloc: Global,
    script: &Script,
    entries: &Entries<Entry>,
    line: &[u8],
    output: &mut K,
) -> Result<(), PrintFault>
    ensures whole { OnOk result (Appends (K.took output.old) (K.took output.new) (entries_text script.now entries.now ++ line.now)) }
    ensures front { IfErr result (LeavesFront (stream K.took K.faults output.old output.new) (entries_text script.now entries.now) line.now) }
    ensures later { K.faults output.old ≤ K.faults output.new }
    ensures reason { IfErr result (HasReason (K.faults output.old) (K.faults output.new)) }
{
    put_transcript(alloc, script, entries, output)?;
    if put_all(output, line).is_err() {
        return Err(PrintFault::Write);
    }
    Ok(())
}

// Prints a whole run: the transcript, and then how many requests and level calls there were.
fn print_whole<K: Sink>(
    alloc: Global,
    script: &Script,
    entries: &Entries<Entry>,
    output: &mut K,
) -> u8
    requires { calls_of entries.now < 2 ^ 64 }
    ensures status { IsStatusOf None result }
    ensures printed { HasPrintedRun (stream K.took K.faults output.old output.new) script.now entries.now result }
{
    let Ok(line) = done_line(alloc, entries) else {
        return 6;
    };
    match put_behind(alloc, script, entries, &line, output) {
        Ok(()) => 0,
        Err(PrintFault::Write) => 4,
        Err(PrintFault::Memory(_)) => 6,
    }
}

// Prints a run that was stopped: the transcript of what closed, and where the store failed the line of it.
fn print_stopped<K: Sink>(
    alloc: Global,
    script: &Script,
    entries: &Entries<Entry>,
    cause: StopCause,
    output: &mut K,
) -> u8
    ensures status { IsStatusOf (Some cause) result }
    ensures printed { HasPrintedRun (stream K.took K.faults output.old output.new) script.now entries.now result }
{
    match cause {
        StopCause::Store => {
            match put_behind(alloc, script, entries, b"stopped store\n", output) {
                Ok(()) => 5,
                Err(PrintFault::Write) => 5,
                Err(PrintFault::Memory(_)) => 6,
            }
        }
        StopCause::Memory => {
            let _ = put_transcript(alloc, script, entries, output);
            6
        }
    }
}

// Prints what a run left, and gives it. The command whose run it is, and the store's count of faults before it, are named
// for clauses alone.
fn close<K: Sink, B: Store>(
    alloc: Global,
    command: Command,
    script: &Script,
    parts: Parts<B>,
    start: u64,
    output: &mut K,
) -> Outcome<B>
    requires left { IsLeftBy B.faults start command script.now parts }
    ensures ends { RunEnds command (stream K.took K.faults output.old output.new) (given_by start result) script.now }
    ensures store { StoreIsLeft B.faults start (stream K.took K.faults output.old output.new) result }
{
    let (_command, _start) = (command, start);
    let Parts {
        entries,
        levels,
        store,
        store_faults,
        stopped,
    } = parts;
    let status = match stopped {
        None => print_whole(alloc, script, &entries, output),
        Some(cause) => print_stopped(alloc, script, &entries, cause, output),
    };
    Outcome {
        status,
        entries,
        levels,
        store,
        store_faults,
    }
}

/// The end of a command that read its script and ran it, or that has none: what is printed of it, and what is given.
/// Before the command the store's count of faults was `start`.
pub(crate) fn end<K: Sink, B: Store>(
    alloc: Global,
    command: Command,
    ran: Result<(Script, Parts<B>), OpenFault>,
    start: u64,
    output: &mut K,
) -> Outcome<B>
    requires left { IfOk ran (λ r. IsLeftBy B.faults start command r.0 r.1) }
    ensures ends { (input : Stream) → HasRead (λ r. r.0) input ran →
        Ends command input (stream K.took K.faults output.old output.new) (given_by start result) }
    ensures store { (input : Stream) → HasRead (λ r. r.0) input ran →
        StoreEnds B.faults start input (stream K.took K.faults output.old output.new) result }
{
    match ran {
        Ok((script, parts)) => close(alloc, command, &script, parts, start, output),
        Err(OpenFault::Input) => stop(alloc, output, 3, b"read fault\n", start),
        Err(OpenFault::Script(fault)) => refuse(alloc, output, fault, start),
        Err(OpenFault::Memory) => no_run(alloc, 6, start),
    }
}
