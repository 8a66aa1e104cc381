// What the command `load` prints.
ghost use Rattle.std.specs.Prelude.{◌≡◌, ◌≤◌, ◌<◌, ◌^◌, ◌++◌, List, None, Some, IfOk, OnOk, OnErr, ℕ};
ghost use Rattle.std.specs.Io.KnownBytes.{Appends};
ghost use Rattle.psos_io.specs.Bytes.{AppendsFront};
ghost use Rattle.psos_io.specs.Causes.{Rose};
ghost use Rattle.psos_model.specs.Text.Output.{calls_of};
ghost use Rattle.psos_top.specs.Outcome.{stream};
ghost use Rattle.psos_top.specs.Runs.{IsStatusOf, HasPrinted};
ghost use Rattle.psos_top.specs.Loading.{counts_text};

use psos_calls::Entry;
use psos_io::{Failed, Sink, put_all};
use psos_journal::{Entries, StopCause};
use psos_print::{done_line, forms_line};
use std::alloc::{AllocError, Global};

// The two lines behind the first.
fn counts(alloc: Global, entries: &Entries<Entry>) -> Result<Vec<u8>, AllocError>
    requires { calls_of entries.now < 2 ^ 64 }
    ensures { IfOk result (λ text. text.items ≡ counts_text entries.now) }
{
    let mut text = forms_line(alloc, entries)?;
    let done = done_line(alloc, entries)?;
    text.extend_from_slice(&done)?;
    Ok(text)
}

// Writes the first line, and then others.
fn put_behind<K: Sink>(output: &mut K, head: &[u8], lines: &[u8]) -> Result<(), Failed>
    ensures whole { OnOk result (Appends (K.took output.old) (K.took output.new) (head.now ++ lines.now)) }
    ensures front { AppendsFront (K.took output.old) (K.took output.new) (head.now ++ lines.now) }
    ensures later { K.faults output.old ≤ K.faults output.new }
    ensures failed { OnErr result (Rose (K.faults output.old) (K.faults output.new)) }
{
    put_all(output, head)?;
    put_all(output, lines)
}

/// Prints a whole run: its first line, and then the counts. For want of memory nothing is written.
pub(crate) fn print_counts<K: Sink>(
    alloc: Global,
    head: &[u8],
    entries: &Entries<Entry>,
    output: &mut K,
) -> u8
    requires { calls_of entries.now < 2 ^ 64 }
    ensures status { IsStatusOf None result }
    ensures printed { HasPrinted (stream K.took K.faults output.old output.new) head.now (counts_text entries.now) result }
{
    let Ok(text) = counts(alloc, entries) else {
        return 6;
    };
    match put_behind(output, head, &text) {
        Ok(()) => 0,
        Err(_) => 4,
    }
}

/// Prints the end of a run that was stopped: the first line, and where the store failed the line of it.
pub(crate) fn print_stop<K: Sink>(head: &[u8], cause: StopCause, output: &mut K) -> u8
    ensures status { IsStatusOf (Some cause) result }
    ensures printed { (line : List ℕ) → HasPrinted (stream K.took K.faults output.old output.new) head.now line result }
{
    match cause {
        StopCause::Store => {
            let _ = put_behind(output, head, b"stopped store\n");
            5
        }
        StopCause::Memory => {
            let _ = put_all(output, head);
            6
        }
    }
}
