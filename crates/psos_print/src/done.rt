// The last line of a run.
ghost use Rattle.std.specs.Prelude.{◌≡◌, ◌<◌, ◌^◌, ◌++◌, length, IfOk, OnOk};
ghost use Rattle.psos_model.specs.Text.Output.{calls_of, done_text};

use psos_calls::Entry;
use psos_journal::Entries;
use psos_text::put_number;
use std::alloc::{AllocError, Global};

fn calls(entries: &[Entry]) -> u64
    requires { calls_of entries.now < 2 ^ 64 }
    ensures { result ≡ calls_of entries.now }
{
    let mut count = 0u64;
    'entries: for entry in entries {
        count += entry.steps.len() as u64;
    }
    count
}

#[tactic(auto, using(std::proofs::lemmas::List::append_assoc))]
fn put_done(alloc: Global, out: &mut Vec<u8>, n: u64, calls: u64) -> Result<(), AllocError>
    ensures { OnOk result (out.new.items ≡ out.old.items ++ done_text n calls) }
{
    out.extend_from_slice(b"done ")?;
    put_number(alloc, out, n)?;
    out.extend_from_slice(b" calls ")?;
    put_number(alloc, out, calls)?;
    out.extend_from_slice(b"\n")
}

/// The last line of a run: the numbers of its requests and of its level calls (docs/program.md, "Output"). The entries
/// made fewer than 2^64 level calls. `Err` only where memory runs out.
pub fn done_line(alloc: Global, entries: &Entries<Entry>) -> Result<Vec<u8>, AllocError>
    requires { calls_of entries.now < 2 ^ 64 }
    ensures { IfOk result (λ text. text.items ≡ done_text (length entries.now) (calls_of entries.now)) }
{
    let mut text = Vec::new(alloc);
    let calls = calls(entries.as_slice());
    put_done(alloc, &mut text, u64::from(entries.len()), calls)?;
    Ok(text)
}
