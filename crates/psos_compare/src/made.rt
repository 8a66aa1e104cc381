// A script that is made from a number: the core runs it in turns, and the plain program in the order of that run.
ghost use Rattle.std.specs.Prelude.{◌<◌};

use crate::runs::{entries_text, lines_text, put_same, run_in_turns};
use psos_calls::{Entry, Line, Reply};
use psos_io::Store;
use psos_journal::Entries;
use psos_load::script_text;
use psos_rows::order_lines;
use psos_script::read_script;
use psos_store::MemStore;
use psos_text::put_number;
use std::alloc::{AllocError, Global};

// The users of entries, in their order.
fn order_of(alloc: Global, entries: &Entries<Entry>) -> Result<Vec<u8>, AllocError> {
    let mut order = Vec::new(alloc);
    'entries: for entry in entries.as_slice() {
        order.push(entry.user)?;
    }
    Ok(order)
}

// The form of a reply, of five.
fn form(reply: &Reply) -> usize
    ensures { result < 5 }
{
    match reply {
        Reply::Fine => 0,
        Reply::Data(_) => 1,
        Reply::Cap(_) => 2,
        Reply::Names(_) => 3,
        Reply::No(_) => 4,
    }
}

// How many lines have each form of reply.
fn forms(lines: &[Line]) -> [u64; 5] {
    let mut counts = [0u64; 5];
    'lines: for line in lines {
        let form = form(&line.reply);
        counts[form] = counts[form].saturating_add(1);
    }
    counts
}

// The words of the forms, each before the number of lines that have it.
fn put_forms(alloc: Global, out: &mut Vec<u8>, lines: &[Line]) -> Result<(), AllocError> {
    let counts = forms(lines);
    let words: [&[u8]; 5] = [b"ok ", b" data ", b" cap ", b" names ", b" no "];
    'forms: for i in 0..5usize {
        out.extend_from_slice(words[i])?;
        put_number(alloc, out, counts[i])?;
    }
    out.extend_from_slice(b"\n")
}

// What both say of a made script: the number of lines, the forms of their replies, and whether the lines are the same.
fn put_made<B: Store>(
    alloc: Global,
    out: &mut Vec<u8>,
    text: &[u8],
    seed: u64,
    store: B,
) -> Result<(), AllocError> {
    let Ok(script) = read_script(alloc, text) else {
        return out.extend_from_slice(b"NO SCRIPT\n");
    };
    let (script, entries) = run_in_turns(alloc, script, seed, store)?;
    let order = order_of(alloc, &entries)?;
    let lines = order_lines(alloc, &script, &order)?;
    put_number(alloc, out, lines.len() as u64)?;
    out.extend_from_slice(b" lines\n")?;
    put_forms(alloc, out, &lines)?;
    let flat = lines_text(alloc, &script, &lines)?;
    let core = entries_text(alloc, &script, &entries)?;
    put_same(out, &flat, &core)
}

/// The numbers of replies that `psos load` prints, as the plain program gives them, and whether the core gives the same
/// lines.
pub fn put_load(alloc: Global, out: &mut Vec<u8>) -> Result<(), AllocError> {
    out.extend_from_slice(b"== load --users 8 --lines 240 --seed 1\n")?;
    let text = script_text(alloc, 8, 240, 1)?;
    let store = MemStore::new(alloc, Vec::new(alloc))?;
    put_made(alloc, out, &text, 1, store)
}
