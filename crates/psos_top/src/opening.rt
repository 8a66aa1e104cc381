// What a command begins with: the script that it reads, and the levels at boot.
ghost use Rattle.std.specs.Prelude.{◌≡◌, ◌≤◌, IfOk};
ghost use Rattle.psos_limits.specs.declared.TheConstants.{MOST_PAGE_FRAMES, LEAST_PAGE_FRAMES};
ghost use Rattle.psos_calls.specs.Language.Script.{IsWellFormed};
ghost use Rattle.psos_model.specs.Replay.{boot_system};
ghost use Rattle.psos_core.specs.System.{system_of};
ghost use Rattle.psos_top.specs.Outcome.{stream};
ghost use Rattle.psos_top.specs.Runs.{read_for_run, HasRead, IsAtBoot};

use crate::open_fault::OpenFault;
use psos_calls::Script;
use psos_core::{Core, Levels};
use psos_io::{InputFault, Source, Store, read_all};
use psos_script::{ReadFault, read_script};
use std::alloc::{AllocError, Global};

// What the reader answers, or why there is none.
fn found(read: Result<Script, ReadFault>) -> Result<Script, OpenFault>
    ensures { result ≡ read_for_run read }
{
    match read {
        Ok(script) => Ok(script),
        Err(ReadFault::Script(fault)) => Err(OpenFault::Script(fault)),
        Err(ReadFault::Memory(_)) => Err(OpenFault::Memory),
    }
}

/// The script of an input, which is read to its end, or to one byte past the most that a script has.
pub(crate) fn read_input<I: Source>(alloc: Global, input: &mut I) -> Result<Script, OpenFault>
    ensures { HasRead (λ s. s) (stream I.left I.faults input.old input.new) result }
{
    let bytes = match read_all(alloc, input) {
        Ok(bytes) => bytes,
        Err(InputFault::Failed) => return Err(OpenFault::Input),
        Err(InputFault::Memory) => return Err(OpenFault::Memory),
    };
    found(read_script(alloc, &bytes))
}

/// A core of a script over the levels at boot, in which nothing was run. `Err` only where memory runs out: the store is
/// gone then, and no call of it was made.
pub(crate) fn boot_core<B: Store>(
    alloc: Global,
    frames: u16,
    script: Script,
    store: B,
) -> Result<Core<B>, AllocError>
    requires well_formed { IsWellFormed script }
    requires least { LEAST_PAGE_FRAMES ≤ frames }
    requires most { frames ≤ MOST_PAGE_FRAMES }
    ensures boot { IfOk result (λ core. IsAtBoot core) }
    ensures script { IfOk result (λ core. core.script ≡ script) }
    ensures store { IfOk result (λ core. core.levels.pages.store ≡ store) }
{
    let levels = Levels::boot(alloc, &script, frames, store)?;
    let core = Core::new(alloc, script, levels)?;
    Ok(core)
}

/// The same of the script of an input.
pub(crate) fn open_core<I: Source, B: Store>(
    alloc: Global,
    frames: u16,
    input: &mut I,
    store: B,
) -> Result<Core<B>, OpenFault>
    requires least { LEAST_PAGE_FRAMES ≤ frames }
    requires most { frames ≤ MOST_PAGE_FRAMES }
    ensures read { HasRead (λ core. core.script) (stream I.left I.faults input.old input.new) result }
    ensures boot { IfOk result (λ core. IsAtBoot core) }
    ensures store { IfOk result (λ core. core.levels.pages.store ≡ store) }
{
    let script = read_input(alloc, input)?;
    let Ok(core) = boot_core(alloc, frames, script, store) else {
        return Err(OpenFault::Memory);
    };
    Ok(core)
}
