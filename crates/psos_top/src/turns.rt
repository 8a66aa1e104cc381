// The command `turns`.
ghost use Rattle.std.specs.Prelude.{◌≤◌, IfOk};
ghost use Rattle.psos_limits.specs.declared.TheConstants.{MOST_PAGE_FRAMES, LEAST_PAGE_FRAMES};
ghost use Rattle.psos_top.specs.Outcome.{stream, given_by, Ends, StoreEnds};
ghost use Rattle.psos_top.specs.Runs.{HasRead, IsLeftBy};

use crate::Command;
use crate::ending::end;
use crate::open_fault::OpenFault;
use crate::opening::open_core;
use crate::outcome::Outcome;
use psos_calls::Script;
use psos_core::Parts;
use psos_io::{Sink, Source, Store};
use std::alloc::Global;

// Reads the script and runs it.
fn serve<I: Source, B: Store>(
    alloc: Global,
    frames: u16,
    seed: u64,
    input: &mut I,
    store: B,
) -> Result<(Script, Parts<B>), OpenFault>
    requires least { LEAST_PAGE_FRAMES ≤ frames }
    requires most { frames ≤ MOST_PAGE_FRAMES }
    ensures read { HasRead (λ r. r.0) (stream I.left I.faults input.old input.new) result }
    ensures left { IfOk result (λ r. IsLeftBy B.faults (B.faults store) (Command.Turns seed) r.0 r.1) }
{
    let mut core = open_core(alloc, frames, input, store)?;
    let _ = core.turns(alloc, seed);
    Ok(core.into_parts())
}

/// The command `turns`: reads a script, runs it in turns that are drawn from the seed, and prints the
/// transcript (docs/program.md, "Commands").
///
/// With more frames, from 8 to 256, the store is called less; what is printed under status 0 is the same. The call always
/// returns.
pub fn turns_call<I: Source, K: Sink, B: Store>(
    alloc: Global,
    frames: u16,
    seed: u64,
    input: &mut I,
    output: &mut K,
    store: B,
) -> Outcome<B>
    requires least { LEAST_PAGE_FRAMES ≤ frames }
    requires most { frames ≤ MOST_PAGE_FRAMES }
    ensures ends { Ends (Command.Turns seed) (stream I.left I.faults input.old input.new) (stream K.took K.faults output.old output.new) (given_by (B.faults store) result) }
    ensures store { StoreEnds B.faults (B.faults store) (stream I.left I.faults input.old input.new) (stream K.took K.faults output.old output.new) result }
{
    let start = store.faults();
    let ran = serve(alloc, frames, seed, input, store);
    end(alloc, Command::Turns(seed), ran, start, output)
}
