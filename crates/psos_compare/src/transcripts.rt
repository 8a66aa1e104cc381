// Transcripts of entries that are made here.
ghost use Rattle.std.specs.Prelude.{◌≡◌, ◌≤◌, ◌<◌, ◌+◌, length, IfOk, OnOk};
ghost use Rattle.psos_model.specs.Text.Output.{calls_of};

use crate::lines::name;
use psos_calls::{Entry, LevelAnswer, LevelCall, Names, Reply, Script, Trace, UserText};
use psos_io::{MemSink, Sink};
use psos_journal::Entries;
use psos_print::{PrintFault, done_line, put_transcript};
use psos_text::put_number;
use std::alloc::{AllocError, Global};

// An answered request of a user, with one call or none.
fn entry(alloc: Global, user: u8, n: u16, called: bool) -> Result<Entry, AllocError>
    ensures { IfOk result (λ e. length e.steps ≤ 1) }
{
    let mut trace = Trace::new(alloc)?;
    if called {
        trace.push(&LevelCall::Fresh, LevelAnswer::Done);
    }
    Ok(Entry {
        user,
        n,
        m: 0,
        steps: trace.calls(alloc)?,
        reply: Reply::Data(5),
    })
}

fn none(alloc: Global) -> Entries<Entry>
    ensures few { length result ≡ 0 }
    ensures calls { calls_of result ≡ 0 }
{
    Entries::empty(alloc)
}

#[tactic(auto, using(crate::proofs::CallCounts::calls_with))]
fn push(entries: &mut Entries<Entry>, entry: Entry) -> Result<(), AllocError>
    requires few { length entries.old < 100 }
    requires short { length entry.steps ≤ 1 }
    ensures few { OnOk result (length entries.new ≡ length entries.old + 1) }
    ensures calls { OnOk result (calls_of entries.new ≤ calls_of entries.old + 1) }
{
    match entries.push(entry) {
        Ok(()) => Ok(()),
        Err(_) => Err(AllocError),
    }
}

// A script of bob and alice.
fn script(alloc: Global) -> Result<Script, AllocError> {
    let mut users = Vec::new(alloc);
    users.push(UserText::new(name(b"bob")?, Vec::new(alloc)))?;
    users.push(UserText::new(name(b"alice")?, Vec::new(alloc)))?;
    Ok(Script::new(users, Vec::new(alloc)))
}

// Each user's lines in the order of the script, and an entry of no user, which is passed over. All lines go in one
// write, since a second would fail.
fn put_run(alloc: Global, out: &mut Vec<u8>) -> Result<(), AllocError> {
    let script = script(alloc)?;
    let mut entries = none(alloc);
    push(&mut entries, entry(alloc, 1, 1, false)?)?;
    push(&mut entries, entry(alloc, 0, 1, true)?)?;
    push(&mut entries, entry(alloc, 1, 2, false)?)?;
    push(&mut entries, entry(alloc, 2, 7, false)?)?;
    let mut sink = MemSink::new(1000, vec![in alloc; 2]?);
    sink.reserve(alloc, 1000)?;
    if put_transcript(alloc, &script, &entries, &mut sink).is_err() {
        return Err(AllocError);
    }
    out.extend_from_slice(b"== a run of four requests, one of them of no user\n")?;
    out.extend_from_slice(sink.bytes())?;
    let last = done_line(alloc, &entries)?;
    out.extend_from_slice(&last)
}

// Of no entries nothing is written, and no memory of the sink is asked for.
fn put_nothing(alloc: Global, out: &mut Vec<u8>) -> Result<(), AllocError> {
    let script = script(alloc)?;
    let entries = none(alloc);
    let mut sink = MemSink::new(5, Vec::new(alloc));
    if put_transcript(alloc, &script, &entries, &mut sink).is_err() {
        return Err(AllocError);
    }
    out.extend_from_slice(b"== a run of no request\n")?;
    out.extend_from_slice(sink.bytes())?;
    let last = done_line(alloc, &entries)?;
    out.extend_from_slice(&last)
}

// A thousand names of sixteen letters, and the line that tells them.
fn long_line(alloc: Global) -> Result<(Names, Vec<u8>), AllocError> {
    let mut names = Names::empty(alloc);
    let mut text = b"bob 1 @1 names".to_vec(alloc)?;
    'names: for _ in 0..1000 {
        names.push(name(b"abcdefghijklmnop")?)?;
        text.extend_from_slice(b" abcdefghijklmnop")?;
    }
    text.push(b'\n')?;
    Ok((names, text))
}

// The second piece is refused, and the first was one line of 17,015 bytes.
fn put_cut_run(alloc: Global, out: &mut Vec<u8>) -> Result<(), AllocError> {
    let script = script(alloc)?;
    let (names, text) = long_line(alloc)?;
    let mut entries = none(alloc);
    push(&mut entries, entry(alloc, 1, 1, false)?)?;
    let mut long = entry(alloc, 0, 1, false)?;
    long.reply = Reply::Names(names);
    push(&mut entries, long)?;
    let mut sink = MemSink::new(100_000, vec![in alloc; 2]?);
    sink.reserve(alloc, 100_000)?;
    out.extend_from_slice(b"== a run of which the second piece is refused\n")?;
    let Err(PrintFault::Write) = put_transcript(alloc, &script, &entries, &mut sink) else {
        return out.extend_from_slice(b"NO WRITE FAILED\n");
    };
    if sink.bytes() == text.as_slice() {
        out.extend_from_slice(b"the long line of bob and no more, bytes ")?;
    } else {
        out.extend_from_slice(b"NOT THE LONG LINE OF BOB, bytes ")?;
    }
    put_number(alloc, out, sink.bytes().len() as u64)?;
    out.extend_from_slice(b", faults ")?;
    put_number(alloc, out, sink.faults())?;
    out.extend_from_slice(b"\n")
}

/// Transcripts with their last lines, and one that a failing write cuts.
pub fn put_transcripts(alloc: Global, out: &mut Vec<u8>) -> Result<(), AllocError> {
    put_run(alloc, out)?;
    put_nothing(alloc, out)?;
    put_cut_run(alloc, out)
}
