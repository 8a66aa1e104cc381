// All requests of a script, in the serial order.
ghost use Rattle.std.specs.Prelude.{◌≡◌, ◌<◌, ◌+◌, [], length, slice_get, slice_index_or, OnOk};
ghost use Rattle.psos_calls.specs.Language.Script.{user_script, requests_of};
ghost use Rattle.psos_model.specs.Run.{is_open};
ghost use Rattle.psos_model.specs.Events.Serial.{IsCoreStart};
ghost use Rattle.psos_model.specs.Run.SerialOrder.{IsSerialFrom};
ghost use Rattle.psos_core.specs.System.{system_of};
ghost use Rattle.psos_core.specs.Faults.{MayStop};
ghost use Rattle.psos_core.specs.Serving.{Start, IsFrontFrom, AreSettledFrom, IsRunFrom};
ghost use Rattle.psos_core.specs.UnderWay.{phases_most, asked_before, due, AreCounted, HasServed};

use crate::Levels;
use crate::phases::phases_of;
use crate::serve::serve;
use psos_calls::{Entry, Private, Request, Script, Trace};
use psos_io::Store;
use psos_journal::{Entries, StopCause};
use std::alloc::Global;

// How many of user u's requests stand in phase p.
fn asked_in(script: &Script, p: usize, u: usize) -> usize
    requires { u < length script.now.users }
    ensures { result ≡ length (slice_index_or (user_script script.now u).phases p []) }
{
    match script.users()[u].phases().get(p) {
        Some(phase) => phase.len(),
        None => 0,
    }
}

/// Whether the user has a body open.
pub fn is_open(me: &Private) -> bool
    ensures { result ≡ is_open me.now.frames }
{
    me.label_and_line().is_some()
}

// Request k of user u in phase p, counted from 0.
fn asked_of(script: &Script, p: usize, u: usize, k: usize) -> Option<Request>
    requires { u < length script.now.users }
    ensures { result ≡ slice_get (slice_index_or (user_script script.now u).phases p []) k }
{
    match script.users()[u].phases().get(p) {
        Some(phase) => phase.get(k).copied(),
        None => None,
    }
}

// Request k of user u, counted from 0 over all phases, where so many stand in the phases up to p: one of phase p is found
// at once.
fn asked_at(script: &Script, p: usize, u: usize, count: usize, k: usize) -> Option<Request>
    requires user { u < length script.now.users }
    requires count { count ≡ asked_before (user_script script.now u).phases (p + 1) }
    ensures { result ≡ slice_get (requests_of (user_script script.now u)) k }
{
    let last = asked_in(script, p, u);
    if k < count && count - last <= k {
        return asked_of(script, p, u, k - (count - last));
    }
    script.users()[u].request(k)
}

// What user u asks next, where a body is open, or not so many of its script requests are answered, which are those of the
// phases up to p.
fn due(script: &Script, me: &Private, p: usize, u: usize, count: usize) -> Option<Request>
    requires user { u < length script.now.users }
    requires number { me.now.number ≡ u }
    requires count { count ≡ asked_before (user_script script.now u).phases (p + 1) }
    ensures { result ≡ due script.now me.now count }
{
    if is_open(me) {
        return me.next_request(script);
    }
    let answered = me.answered() as usize;
    if answered < count {
        return asked_at(script, p, u, count, answered);
    }
    None
}

// Serves what is left to user u up to phase p, which is so many requests in all, and the lines of the bodies that its
// requests open.
fn serve_user<B: Store>(
    alloc: Global,
    script: &Script,
    levels: &mut Levels<B>,
    trace: &mut Trace,
    entries: &mut Entries<Entry>,
    p: usize,
    u: usize,
    count: usize,
) -> Result<(), StopCause>
    ghost start: { Start }
    requires start { IsCoreStart script.now start.system start.flat }
    requires user { u < length script.now.users }
    requires phase { p < phases_most script.now.users }
    requires count { count ≡ asked_before (user_script script.now u).phases (p + 1) }
    requires before { HasServed script.now start.system start.flat (system_of levels.old) entries.old p u }
    ensures served { OnOk result (HasServed script.now start.system start.flat (system_of levels.new) entries.new p (u + 1)) }
    ensures front { IsFrontFrom script.now start.system start.flat entries.new }
    ensures settled { AreSettledFrom script.now start.system entries.new levels.new.privates.value.items }
    ensures users { length levels.new.privates.value.items ≡ length levels.old.privates.value.items }
    ensures cause { MayStop (B.faults levels.old.pages.store) (B.faults levels.new.pages.store) result }
{
    'turns: while let Some(request) = due(script, &levels.privates.as_slice()[u], p, u, count) {
        serve(alloc, script, levels, trace, entries, u as u8, &request)?;
    }
    Ok(())
}

// Serves phase p of all users, where all before is served. The counts are those of each user's requests before the phase,
// and then before the next.
fn serve_users<B: Store>(
    alloc: Global,
    script: &Script,
    levels: &mut Levels<B>,
    trace: &mut Trace,
    entries: &mut Entries<Entry>,
    counts: &mut [usize; 8],
    p: usize,
) -> Result<(), StopCause>
    ghost start: { Start }
    requires start { IsCoreStart script.now start.system start.flat }
    requires phase { p < phases_most script.now.users }
    requires counted { AreCounted script.now p 0 counts.old }
    requires before { HasServed script.now start.system start.flat (system_of levels.old) entries.old p 0 }
    ensures counted { OnOk result (AreCounted script.now (p + 1) 0 counts.new) }
    ensures served { OnOk result (HasServed script.now start.system start.flat (system_of levels.new) entries.new (p + 1) 0) }
    ensures front { IsFrontFrom script.now start.system start.flat entries.new }
    ensures settled { AreSettledFrom script.now start.system entries.new levels.new.privates.value.items }
    ensures users { length levels.new.privates.value.items ≡ length levels.old.privates.value.items }
    ensures cause { MayStop (B.faults levels.old.pages.store) (B.faults levels.new.pages.store) result }
{
    'users: for u in 0..script.users().len() {
        let count = counts[u] + asked_in(script, p, u);
        serve_user(alloc, script, levels, trace, entries, p, u, count)?;
        counts[u] = count;
    }
    Ok(())
}

/// Serves all requests of the script from a start, each time the next request of the first user that has one left: a
/// user's requests of a phase one after another, with the lines of the bodies that they open, then those of the next
/// user, and a phase when all users are through with the one before. It stops for want of memory, or for a fault of
/// the store, which its count shows; the entries are then those of the requests that closed before, all of them.
pub(crate) fn serve_phases<B: Store>(
    alloc: Global,
    script: &Script,
    levels: &mut Levels<B>,
    trace: &mut Trace,
    entries: &mut Entries<Entry>,
) -> Result<(), StopCause>
    ghost start: { Start }
    requires start { IsCoreStart script.now start.system start.flat }
    requires here { system_of levels.old ≡ start.system }
    requires fresh { entries.old ≡ [] }
    ensures run { OnOk result (IsRunFrom script.now start.system start.flat (IsSerialFrom script.now start.flat) entries.new (system_of levels.new)) }
    ensures front { IsFrontFrom script.now start.system start.flat entries.new }
    ensures settled { AreSettledFrom script.now start.system entries.new levels.new.privates.value.items }
    ensures users { length levels.new.privates.value.items ≡ length levels.old.privates.value.items }
    ensures cause { MayStop (B.faults levels.old.pages.store) (B.faults levels.new.pages.store) result }
{
    let mut counts = [0; 8];
    'phases: for p in 0..phases_of(script.users()) {
        serve_users(alloc, script, levels, trace, entries, &mut counts, p)?;
    }
    Ok(())
}
