// A run of threads.
ghost use Rattle.std.specs.Prelude.{◌≡◌, IfOk};
ghost use Rattle.psos_calls.specs.Language.Script.{IsWellFormed};
ghost use Rattle.psos_model.specs.Replay.{boot_system};
ghost use Rattle.psos_core.specs.System.{system_of};
ghost use Rattle.psos_locks.specs.Ends.{IsGroundFor, IsGiven, CountsFaults, HasRun};

use crate::locks::Locks;
use crate::phases::run_phases;
use crate::run::Run;
use psos_calls::{Entry, Script};
use psos_core::{Levels, Parts};
use psos_io::{Gate, Store};
use psos_journal::Ground;
use psos_limits::MOST_REQUESTS;
use std::alloc::{AllocError, Global};
use std::marker::Brand;
use std::sync::Wait;
use std::thread::Threads;

/// Runs a script from levels that were booted for it, with a thread for each of its users, and gives what the run
/// leaves. At most as many threads are made as there are users, and the caller's is one of them; where none can be made
/// the users go one after another. It returns only if each request does, so it waits where one waits
/// (docs/levels.md, "Locks", "Journal" and "Phases"). `Err` only where memory runs out before the first request: the
/// levels and the store go.
pub fn run_threads<R: Threads + Wait + Sync, B: Store + Send, G: Gate + Sync>(
    rt: &R,
    alloc: Global,
    script: &Script,
    levels: Levels<B>,
    gate: &G,
) -> Result<Parts<B>, AllocError>
    requires well_formed { IsWellFormed script.now }
    requires booted { system_of levels ≡ boot_system script.now }
    ensures ran { IfOk result (λ parts. HasRun script.now parts) }
    ensures given { IfOk result (λ parts. IsGiven B.faults parts.stopped parts.levels parts.store parts.store_faults) }
    ensures counted { IfOk result (λ parts. CountsFaults (B.faults levels.pages.store) parts.store_faults parts.stopped) }
{
    let users = script.users().len() as u8;
    let ground = Ground::new(alloc, users + 7 + users, MOST_REQUESTS as u32)?;
    run_on::<Brand, R, B, G>(rt, alloc, script, levels, ground, gate)
}

// Runs a script on the ground of a journal.
fn run_on<T: Run + Send + Sync, R: Threads + Wait + Sync, B: Store + Send, G: Gate + Sync>(
    rt: &R,
    alloc: Global,
    script: &Script,
    levels: Levels<B>,
    ground: Ground<Entry>,
    gate: &G,
) -> Result<Parts<B>, AllocError>
    requires script { script.now ≡ T.script }
    requires well_formed { IsWellFormed T.script }
    requires booted { system_of levels ≡ boot_system T.script }
    requires store { B.faults levels.pages.store ≡ T.faults_before }
    requires ground { IsGroundFor T.script ground T.book T.counts T.told T.faults }
    ensures ran { IfOk result (λ parts. HasRun T.script parts) }
    ensures given { IfOk result (λ parts. IsGiven B.faults parts.stopped parts.levels parts.store parts.store_faults) }
    ensures counted { IfOk result (λ parts. CountsFaults T.faults_before parts.store_faults parts.stopped) }
{
    let (locks, mut users) = Locks::<T, B>::new(alloc, script, levels, ground)?;
    run_phases(rt, alloc, &locks, script, &mut users, gate);
    Ok(locks.into_parts(alloc, users))
}
