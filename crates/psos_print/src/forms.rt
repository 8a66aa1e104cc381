// How many replies have each form.
ghost use Rattle.std.specs.Prelude.{◌≡◌, ◌<◌, ◌^◌, ◌++◌, decimal, length, map, IfOk, OnOk};
ghost use Rattle.psos_model.specs.Replay.{answered_of};
ghost use Rattle.psos_model.specs.Text.Load.{form_of, with_form, forms_text};

use psos_calls::{Entry, Reply};
use psos_journal::Entries;
use psos_text::put_number;
use std::alloc::{AllocError, Global};

fn form(reply: &Reply) -> u8
    ensures { result ≡ form_of reply.now }
{
    match reply {
        Reply::Fine => 0,
        Reply::Data(_) => 1,
        Reply::Cap(_) => 2,
        Reply::Names(_) => 3,
        Reply::No(_) => 4,
    }
}

fn count(entries: &[Entry], wanted: u8) -> u64
    requires { length entries.now < 2 ^ 32 }
    ensures { result ≡ with_form wanted (map answered_of entries.now) }
{
    let mut count = 0u64;
    'entries: for entry in entries {
        if form(&entry.reply) == wanted {
            count += 1;
        }
    }
    count
}

// The word of a form, and how many replies have it.
#[tactic(auto, using(std::proofs::lemmas::List::append_assoc))]
fn put_form(
    alloc: Global,
    out: &mut Vec<u8>,
    word: &[u8],
    entries: &[Entry],
    wanted: u8,
) -> Result<(), AllocError>
    requires { length entries.now < 2 ^ 32 }
    ensures { OnOk result (out.new.items ≡ out.old.items ++ (word.now ++ decimal (with_form wanted (map answered_of entries.now)))) }
{
    out.extend_from_slice(word)?;
    put_number(alloc, out, count(entries, wanted))
}

#[tactic(auto, using(std::proofs::lemmas::List::append_assoc))]
fn put_forms(alloc: Global, out: &mut Vec<u8>, entries: &[Entry]) -> Result<(), AllocError>
    requires { length entries.now < 2 ^ 32 }
    ensures { OnOk result (out.new.items ≡ out.old.items ++ forms_text (map answered_of entries.now)) }
{
    put_form(alloc, out, b"ok ", entries, 0)?;
    put_form(alloc, out, b" data ", entries, 1)?;
    put_form(alloc, out, b" cap ", entries, 2)?;
    put_form(alloc, out, b" names ", entries, 3)?;
    put_form(alloc, out, b" no ", entries, 4)?;
    out.extend_from_slice(b"\n")
}

/// The second line of a made script: how many replies have each form (docs/program.md, "Load"). `Err` only where memory
/// runs out.
pub fn forms_line(alloc: Global, entries: &Entries<Entry>) -> Result<Vec<u8>, AllocError>
    ensures { IfOk result (λ text. text.items ≡ forms_text (map answered_of entries.now)) }
{
    let mut text = Vec::new(alloc);
    put_forms(alloc, &mut text, entries.as_slice())?;
    Ok(text)
}
