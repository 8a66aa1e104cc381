// What the plain program and the core say of a script.
ghost use Rattle.std.specs.Prelude.{◌≡◌, IfOk};
ghost use Rattle.psos_calls.specs.Language.Script.{IsWellFormed};

use psos_calls::{Entry, Line, Script};
use psos_core::{Core, Levels};
use psos_io::{MemSink, Store};
use psos_journal::Entries;
use psos_print::{put_line, put_transcript};
use psos_rows::serial_lines;
use std::alloc::{AllocError, Global};

// How many bytes a transcript has at most.
const ROOM: usize = 1 << 22;

/// The lines of the plain program, user after user.
pub fn lines_text(alloc: Global, script: &Script, lines: &[Line]) -> Result<Vec<u8>, AllocError> {
    let mut out = Vec::new(alloc);
    let mut number = 0usize;
    'users: for user in script.users() {
        'lines: for line in lines {
            if usize::from(line.user) == number {
                put_line(alloc, &mut out, user.name(), line)?;
            }
        }
        number = number.saturating_add(1);
    }
    Ok(out)
}

/// The entries of the core, user after user.
pub fn entries_text(
    alloc: Global,
    script: &Script,
    entries: &Entries<Entry>,
) -> Result<Vec<u8>, AllocError> {
    let mut sink = MemSink::new(1 << 20, Vec::new(alloc));
    sink.reserve(alloc, ROOM)?;
    if put_transcript(alloc, script, entries, &mut sink).is_err() {
        return Err(AllocError);
    }
    sink.bytes().to_vec(alloc)
}

/// What the plain program says in the serial order.
pub fn flat_text(alloc: Global, script: &Script) -> Result<Vec<u8>, AllocError>
    requires { IsWellFormed script.now }
{
    let lines = serial_lines(alloc, script)?;
    lines_text(alloc, script, &lines)
}

/// What the core says in the serial order, which makes the level calls of each plan.
pub fn core_text<B: Store>(alloc: Global, script: Script, store: B) -> Result<Vec<u8>, AllocError>
    requires { IsWellFormed script }
{
    let levels = Levels::boot(alloc, &script, 32, store)?;
    let mut core = Core::new(alloc, script, levels)?;
    if core.serial(alloc).is_err() {
        return Err(AllocError);
    }
    entries_text(alloc, &core.script, &core.entries)
}

/// A run of the core in turns that are drawn from a seed: the script, and the entries.
pub fn run_in_turns<B: Store>(
    alloc: Global,
    script: Script,
    seed: u64,
    store: B,
) -> Result<(Script, Entries<Entry>), AllocError>
    requires { IsWellFormed script }
    ensures { IfOk result (λ run. run.0 ≡ script) }
{
    let levels = Levels::boot(alloc, &script, 32, store)?;
    let mut core = Core::new(alloc, script, levels)?;
    if core.turns(alloc, seed).is_err() {
        return Err(AllocError);
    }
    let (script, entries, _) = core.into_run();
    Ok((script, entries))
}

/// Whether both say the same, and else what the core says.
pub fn put_same(out: &mut Vec<u8>, flat: &[u8], core: &[u8]) -> Result<(), AllocError> {
    if core == flat {
        return out.extend_from_slice(b"the levels say the same\n");
    }
    out.extend_from_slice(b"THE LEVELS SAY\n")?;
    out.extend_from_slice(core)
}
