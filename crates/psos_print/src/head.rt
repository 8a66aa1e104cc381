// The first line of a made script.
ghost use Rattle.std.specs.Prelude.{◌≡◌, ◌++◌, decimal, IfOk, OnOk};
ghost use Rattle.psos_model.specs.Text.Load.{load_head};

use psos_text::put_number;
use std::alloc::{AllocError, Global};

// A word and its number.
#[tactic(auto, using(std::proofs::lemmas::List::append_assoc))]
fn put_labelled(alloc: Global, out: &mut Vec<u8>, word: &[u8], n: u64) -> Result<(), AllocError>
    ensures { OnOk result (out.new.items ≡ out.old.items ++ (word.now ++ decimal n)) }
{
    out.extend_from_slice(word)?;
    put_number(alloc, out, n)
}

#[tactic(auto, using(std::proofs::lemmas::List::append_assoc))]
fn put_head(
    alloc: Global,
    out: &mut Vec<u8>,
    users: u8,
    lines: u16,
    seed: u64,
) -> Result<(), AllocError>
    ensures { OnOk result (out.new.items ≡ out.old.items ++ load_head users lines seed) }
{
    put_labelled(alloc, out, b"load users ", u64::from(users))?;
    put_labelled(alloc, out, b" lines ", u64::from(lines))?;
    put_labelled(alloc, out, b" seed ", seed)?;
    out.extend_from_slice(b"\n")
}

/// The first line of a made script: from which numbers it is made (docs/program.md, "Load"). `Err` only where memory
/// runs out.
pub fn load_head(alloc: Global, users: u8, lines: u16, seed: u64) -> Result<Vec<u8>, AllocError>
    ensures { IfOk result (λ text. text.items ≡ load_head users lines seed) }
{
    let mut text = Vec::new(alloc);
    put_head(alloc, &mut text, users, lines, seed)?;
    Ok(text)
}
