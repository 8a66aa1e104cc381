// The command `run`.
ghost use Rattle.std.specs.Prelude.{◌≤◌, IfOk};
ghost use Rattle.psos_limits.specs.declared.TheConstants.{MOST_PAGE_FRAMES, LEAST_PAGE_FRAMES};
ghost use Rattle.psos_calls.specs.Language.Script.{IsWellFormed};
ghost use Rattle.psos_top.specs.Outcome.{stream, given_by, Ends, StoreEnds};
ghost use Rattle.psos_top.specs.Runs.{HasRead, IsLeftBy};

use crate::Command;
use crate::ending::end;
use crate::open_fault::OpenFault;
use crate::opening::read_input;
use crate::outcome::Outcome;
use psos_calls::Script;
use psos_core::{Levels, Parts};
use psos_io::{Gate, Sink, Source, Store};
use psos_locks::run_threads;
use std::alloc::{AllocError, Global};
use std::sync::Wait;
use std::thread::Threads;

// Runs a script from boot.
fn run_script<R: Threads + Wait + Sync, B: Store + Send, G: Gate + Sync>(
    rt: &R,
    alloc: Global,
    frames: u16,
    script: &Script,
    store: B,
    gate: &G,
) -> Result<Parts<B>, AllocError>
    requires well_formed { IsWellFormed script.now }
    requires least { LEAST_PAGE_FRAMES ≤ frames }
    requires most { frames ≤ MOST_PAGE_FRAMES }
    ensures { IfOk result (IsLeftBy B.faults (B.faults store) Command.Run script.now) }
{
    let levels = Levels::boot(alloc, script, frames, store)?;
    let parts = run_threads(rt, alloc, script, levels, gate)?;
    Ok(parts)
}

// Reads the script and runs it.
fn serve<R: Threads + Wait + Sync, I: Source, B: Store + Send, G: Gate + Sync>(
    rt: &R,
    alloc: Global,
    frames: u16,
    input: &mut I,
    store: B,
    gate: &G,
) -> Result<(Script, Parts<B>), OpenFault>
    requires least { LEAST_PAGE_FRAMES ≤ frames }
    requires most { frames ≤ MOST_PAGE_FRAMES }
    ensures read { HasRead (λ r. r.0) (stream I.left I.faults input.old input.new) result }
    ensures left { IfOk result (λ r. IsLeftBy B.faults (B.faults store) Command.Run r.0 r.1) }
{
    let script = read_input(alloc, input)?;
    let Ok(parts) = run_script(rt, alloc, frames, &script, store, gate) else {
        return Err(OpenFault::Memory);
    };
    Ok((script, parts))
}

/// The command `run`: reads a script, hands each user's requests to a thread of its own, phase by phase, and prints the
/// transcript (docs/program.md, "Commands"). The users share the levels by locks. The gate is told of each level call
/// and of each close.
///
/// With more frames, from 8 to 256, the store is called less. In which order requests close is not promised but that it
/// is complete, and neither is that the call returns.
pub fn run_call<R: Threads + Wait + Sync, I: Source, K: Sink, B: Store + Send, G: Gate + Sync>(
    rt: &R,
    alloc: Global,
    frames: u16,
    input: &mut I,
    output: &mut K,
    store: B,
    gate: &G,
) -> Outcome<B>
    requires least { LEAST_PAGE_FRAMES ≤ frames }
    requires most { frames ≤ MOST_PAGE_FRAMES }
    ensures ends { Ends Command.Run (stream I.left I.faults input.old input.new) (stream K.took K.faults output.old output.new) (given_by (B.faults store) result) }
    ensures store { StoreEnds B.faults (B.faults store) (stream I.left I.faults input.old input.new) (stream K.took K.faults output.old output.new) result }
{
    let start = store.faults();
    let ran = serve(rt, alloc, frames, input, store, gate);
    end(alloc, Command::Run, ran, start, output)
}
