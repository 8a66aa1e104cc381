// The transcript of a run.
ghost use Rattle.std.specs.Prelude.{◌≡◌, ◌<◌, ◌≤◌, ◌^◌, ◌++◌, [], length, map, IfErr, OnOk, OnErr};
ghost use Rattle.std.specs.List.{AllByRecursion};
ghost use Rattle.std.specs.Io.KnownBytes.{Appends};
ghost use Rattle.psos_io.specs.Bytes.{AppendsFront};
ghost use Rattle.psos_model.specs.Replay.{answered_of};
ghost use Rattle.psos_model.specs.Text.Transcript.{line_text, users_lines};
ghost use Rattle.psos_print.specs.Pieces.{HasPut, HasBegun, HasReason};
ghost use Rattle.psos_print.specs.Positions.{entries_text, lines_at, HasPositions};

use crate::fault::PrintFault;
use crate::line::put_parts;
use crate::name::text_of;
use crate::positions::gather;
use psos_calls::{Entry, Script, UserText};
use psos_io::{Sink, put_all};
use psos_journal::Entries;
use std::alloc::{AllocError, Global};

// How many bytes wait at most before they are written, a last line aside.
const PIECE: usize = 16_384;

// Writes the piece, and empties it.
fn write_piece<K: Sink>(piece: &mut Vec<u8>, out: &mut K) -> Result<(), PrintFault>
    ensures ok { OnOk result (Appends (K.took out.old) (K.took out.new) piece.old.items) }
    ensures empty { OnOk result (piece.new.items ≡ []) }
    ensures err { OnErr result (HasBegun (K.took out.old) (K.took out.new) piece.old.items) }
    ensures later { K.faults out.old ≤ K.faults out.new }
    ensures reason { IfErr result (HasReason (K.faults out.old) (K.faults out.new)) }
{
    if put_all(out, piece).is_err() {
        return Err(PrintFault::Write);
    }
    piece.clear();
    Ok(())
}

// The line of an entry behind the piece, which is written where it is full.
fn put_entry<K: Sink>(
    name: &[u8],
    position: u32,
    entry: &Entry,
    piece: &mut Vec<u8>,
    out: &mut K,
) -> Result<(), PrintFault>
    requires { length name.now ≤ 16 }
    ensures ok { OnOk result (HasPut (K.took out.old) (K.took out.new) piece.old.items piece.new.items (line_text name.now position (answered_of entry.now))) }
    ensures err { OnErr result (HasBegun (K.took out.old) (K.took out.new) (piece.old.items ++ line_text name.now position (answered_of entry.now))) }
    ensures later { K.faults out.old ≤ K.faults out.new }
    ensures reason { IfErr result (HasReason (K.faults out.old) (K.faults out.new)) }
{
    let stamp = u64::from(position);
    if put_parts(piece, name, entry.n, entry.m, stamp, &entry.reply).is_err() {
        return Err(PrintFault::Memory(AllocError));
    }
    if piece.len() < PIECE {
        return Ok(());
    }
    write_piece(piece, out)
}

// The lines of the entries at these positions.
fn put_entries<K: Sink>(
    name: &[u8],
    positions: &[u32],
    entries: &[Entry],
    piece: &mut Vec<u8>,
    out: &mut K,
) -> Result<(), PrintFault>
    requires name { length name.now ≤ 16 }
    requires within { AllByRecursion (λ p. p < length entries.now) positions.now }
    ensures ok { OnOk result (HasPut (K.took out.old) (K.took out.new) piece.old.items piece.new.items (lines_at name.now entries.now positions.now)) }
    ensures err { OnErr result (HasBegun (K.took out.old) (K.took out.new) (piece.old.items ++ lines_at name.now entries.now positions.now)) }
    ensures later { K.faults out.old ≤ K.faults out.new }
    ensures reason { IfErr result (HasReason (K.faults out.old) (K.faults out.new)) }
{
    'positions: for position in positions {
        put_entry(name, *position, &entries[*position as usize], piece, out)?;
    }
    Ok(())
}

// The lines of each user, whose positions stand in the list of the same number.
fn put_users<K: Sink>(
    users: &[UserText],
    lists: &[Vec<u32>],
    entries: &[Entry],
    piece: &mut Vec<u8>,
    out: &mut K,
) -> Result<(), PrintFault>
    requires { HasPositions (length users.now) (map (λ l. l.items) lists.now) entries.now }
    ensures ok { OnOk result (HasPut (K.took out.old) (K.took out.new) piece.old.items piece.new.items (users_lines users.now 0 (map answered_of entries.now))) }
    ensures err { OnErr result (HasBegun (K.took out.old) (K.took out.new) (piece.old.items ++ users_lines users.now 0 (map answered_of entries.now))) }
    ensures later { K.faults out.old ≤ K.faults out.new }
    ensures reason { IfErr result (HasReason (K.faults out.old) (K.faults out.new)) }
{
    let mut u = 0usize;
    'users: for user in users {
        put_entries(text_of(user.name()), &lists[u], entries, piece, out)?;
        u += 1;
    }
    Ok(())
}

/// Writes the transcript of a run's entries: for each user in the order of the script, that user's lines in their
/// order, each with the entry's position as its stamp (docs/program.md, "Output"). An entry of a user that the script
/// has not is passed over.
///
/// It is written in pieces of 16,384 bytes or little more; the last may be shorter. The entries are gone over once to
/// find each user's, and one buffer serves for all lines. After either fault a front of the transcript was written:
/// `PrintFault::Write` only where a write failed, `PrintFault::Memory` for want of memory.
pub fn put_transcript<K: Sink>(
    alloc: Global,
    script: &Script,
    entries: &Entries<Entry>,
    out: &mut K,
) -> Result<(), PrintFault>
    ensures whole { OnOk result (Appends (K.took out.old) (K.took out.new) (entries_text script.now entries.now)) }
    ensures front { AppendsFront (K.took out.old) (K.took out.new) (entries_text script.now entries.now) }
    ensures later { K.faults out.old ≤ K.faults out.new }
    ensures reason { IfErr result (HasReason (K.faults out.old) (K.faults out.new)) }
{
    let users = script.users();
    let entries = entries.as_slice();
    let Ok(lists) = gather(alloc, users.len(), entries) else {
        return Err(PrintFault::Memory(AllocError));
    };
    let Ok(mut piece) = Vec::with_capacity(alloc, PIECE + 4096) else {
        return Err(PrintFault::Memory(AllocError));
    };
    put_users(users, &lists, entries, &mut piece, out)?;
    write_piece(&mut piece, out)
}
