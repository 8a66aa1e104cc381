// The command `load`.
ghost use Rattle.std.specs.Prelude.{◌≡◌, ◌≤◌, IfOk};
ghost use Rattle.psos_limits.specs.declared.TheConstants.{MOST_LINES};
ghost use Rattle.psos_calls.specs.Language.Script.{IsWellFormed};
ghost use Rattle.psos_model.specs.Text.Load.{load_text};
ghost use Rattle.psos_model.specs.Text.Spelling.{IsScript};
ghost use Rattle.psos_top.specs.Outcome.{stream, given_by, StoreIsLeft};
ghost use Rattle.psos_top.specs.Runs.{IsAtBoot, IsLeftBy};
ghost use Rattle.psos_top.specs.Loading.{IsMadeFrom, LoadEnds};

use crate::Command;
use crate::ending::no_run;
use crate::loading::{print_counts, print_stop};
use crate::opening::boot_core;
use crate::outcome::Outcome;
use psos_calls::Script;
use psos_core::{Core, Parts};
use psos_io::{Sink, Store};
use psos_load::script_text;
use psos_print::load_head;
use psos_script::{ReadFault, read_script};
use std::alloc::{AllocError, Global};

// The script that the made text spells.
fn made_script(alloc: Global, users: u8, lines: u16, seed: u64) -> Result<Script, AllocError>
    requires some_users { 1 ≤ users }
    requires few_users { users ≤ 8 }
    requires some_lines { 1 ≤ lines }
    requires few_lines { lines ≤ MOST_LINES }
    ensures spelled { IfOk result (λ s. IsScript (load_text users lines seed) s) }
    ensures well_formed { IfOk result (λ s. IsWellFormed s) }
{
    let text = script_text(alloc, users, lines, seed)?;
    match read_script(alloc, &text) {
        Ok(script) => Ok(script),
        Err(ReadFault::Memory(e)) => Err(e),
        Err(ReadFault::Script(_)) => unreachable!(),
    }
}

// A core of that script over the levels at boot, in which nothing was run.
fn open_made<B: Store>(
    alloc: Global,
    users: u8,
    lines: u16,
    seed: u64,
    store: B,
) -> Result<Core<B>, AllocError>
    requires some_users { 1 ≤ users }
    requires few_users { users ≤ 8 }
    requires some_lines { 1 ≤ lines }
    requires few_lines { lines ≤ MOST_LINES }
    ensures spelled { IfOk result (λ core. IsScript (load_text users lines seed) core.script) }
    ensures boot { IfOk result (λ core. IsAtBoot core) }
    ensures store { IfOk result (λ core. core.levels.pages.store ≡ store) }
{
    let script = made_script(alloc, users, lines, seed)?;
    boot_core(alloc, 32, script, store)
}

// Makes the script and runs it.
fn run_made<B: Store>(
    alloc: Global,
    users: u8,
    lines: u16,
    seed: u64,
    store: B,
) -> Result<(Script, Parts<B>), AllocError>
    requires some_users { 1 ≤ users }
    requires few_users { users ≤ 8 }
    requires some_lines { 1 ≤ lines }
    requires few_lines { lines ≤ MOST_LINES }
    ensures spelled { IfOk result (λ r. IsScript (load_text users lines seed) r.0) }
    ensures left { IfOk result (λ r. IsLeftBy B.faults (B.faults store) (Command.Turns seed) r.0 r.1) }
{
    let mut core = open_made(alloc, users, lines, seed, store)?;
    let _ = core.turns(alloc, seed);
    Ok(core.into_parts())
}

// The first line, and the script and what its run leaves.
fn serve<B: Store>(
    alloc: Global,
    users: u8,
    lines: u16,
    seed: u64,
    store: B,
) -> Result<(Vec<u8>, Script, Parts<B>), AllocError>
    requires some_users { 1 ≤ users }
    requires few_users { users ≤ 8 }
    requires some_lines { 1 ≤ lines }
    requires few_lines { lines ≤ MOST_LINES }
    ensures made { IfOk result (λ r. IsMadeFrom users lines seed r.0.items r.1) }
    ensures left { IfOk result (λ r. IsLeftBy B.faults (B.faults store) (Command.Turns seed) r.1 r.2) }
{
    let head = load_head(alloc, users, lines, seed)?;
    let (script, parts) = run_made(alloc, users, lines, seed, store)?;
    Ok((head, script, parts))
}

/// The command `load`: makes a script with so many users, each with so many lines, from a seed, runs it in turns that are
/// drawn from the same seed, and prints how many replies have each form (docs/program.md, "Load").
///
/// There are one to eight users, with 1 to 240 lines each. The call reads no input, and always returns.
pub fn load_call<K: Sink, B: Store>(
    alloc: Global,
    users: u8,
    lines: u16,
    seed: u64,
    output: &mut K,
    store: B,
) -> Outcome<B>
    requires some_users { 1 ≤ users }
    requires few_users { users ≤ 8 }
    requires some_lines { 1 ≤ lines }
    requires few_lines { lines ≤ MOST_LINES }
    ensures ends { LoadEnds users lines seed (stream K.took K.faults output.old output.new) (given_by (B.faults store) result) }
    ensures store { StoreIsLeft B.faults (B.faults store) (stream K.took K.faults output.old output.new) result }
{
    let start = store.faults();
    let Ok((head, _script, parts)) = serve(alloc, users, lines, seed, store) else {
        return no_run(alloc, 6, start);
    };
    let Parts {
        entries,
        levels,
        store,
        store_faults,
        stopped,
    } = parts;
    let status = match stopped {
        None => print_counts(alloc, &head, &entries, output),
        Some(cause) => print_stop(&head, cause, output),
    };
    Outcome {
        status,
        entries,
        levels,
        store,
        store_faults,
    }
}
