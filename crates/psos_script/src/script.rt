// Scripts.
ghost use Rattle.std.specs.Prelude.{None, IfOk, IfErr};
ghost use Rattle.psos_text.specs.Lines.{lines_of};
ghost use Rattle.psos_model.specs.Text.Spelling.{IsScript};
ghost use Rattle.psos_script.specs.Fault.{fault_of};
ghost use Rattle.psos_script.specs.Draft.{script_in, script_of, read};
ghost use Rattle.psos_script.specs.Answers.{Finds, IsFirst, SpellsNone};

use crate::cause::Cause;
use crate::draft::Draft;
use crate::fault::{ReadFault, ScriptFault};
use crate::lines::read_lines;
use psos_calls::Script;
use psos_limits::MOST_INPUT;
use std::alloc::Global;

/// The script that the bytes spell (docs/program.md, "Scripts"). The fault is the least faulty line with the first
/// cause on it, or `ReadFault::Memory` where memory ran out. After either one nothing is kept.
pub fn read_script(alloc: Global, bytes: &[u8]) -> Result<Script, ReadFault>
    ensures found { IfOk result (λ s. IsScript bytes.now s) }
    ensures fault { IfErr result (λ e. IsFirst (fault_of bytes.now) e) }
    ensures none { IfErr result (λ e. SpellsNone bytes.now e) }
{
    script(alloc, bytes)
}

// The script that the lines say, or their first fault.
#[tactic(auto, unfolding(crate::specs::Fault::fault_of, crate::specs::Draft::script_in), using(crate::proofs::LinesBefore::from_start))]
fn script(alloc: Global, bytes: &[u8]) -> Result<Script, ReadFault>
    ensures { Finds (fault_of bytes.now) (λ s. s) (script_in (lines_of bytes.now)) result }
{
    if bytes.len() > MOST_INPUT {
        return Err(ReadFault::Script(ScriptFault {
            line: 0,
            cause: Cause::InputTooLong,
        }));
    }
    match read_lines(alloc, bytes) {
        Err(fault) => Err(fault),
        Ok(draft) => finished(draft),
    }
}

// The script of a draft. `Err` only where memory runs out.
fn finished(draft: Draft) -> Result<Script, ReadFault>
    ensures { Finds None (λ s. s) (script_of (read draft)) result }
{
    match draft.finish() {
        Ok(script) => Ok(script),
        Err(e) => Err(ReadFault::Memory(e)),
    }
}
