// A run that is followed step by step, and where its capabilities come from.
ghost use Rattle.std.specs.Prelude.{◌≡◌};
ghost use Rattle.psos_calls.specs.Language.Script.{IsWellFormed};
ghost use Rattle.psos_laws.specs.Watched.{script_of, IsWatched};

use crate::lines::name;
use psos_calls::{Right, Script};
use psos_caps::Uid;
use psos_laws::{Origin, Watched, Way};
use psos_model::Place;
use psos_print::put_line;
use psos_script::read_script;
use psos_text::put_number;
use std::alloc::{AllocError, Global};

// alice writes a capability on the root into her scratch segment and reads it again; bob mints, and reads in his.
const TEXT: &[u8] = b"user alice\nwrite r3 0 r0\nread r5 r3 0\nuser bob\nmint r4\nread r5 r3 0\n";

// The answer to the next request of a user.
fn put_answer(
    alloc: Global,
    out: &mut Vec<u8>,
    run: &mut Watched,
    script: &Script,
    user: u8,
) -> Result<(), AllocError>
    requires watched { IsWatched run.old }
    requires script { script_of run.old ≡ script.now }
    ensures watched { IsWatched run.new }
    ensures script { script_of run.new ≡ script.now }
{
    if !run.flat().left(script, user) {
        return out.extend_from_slice(b"NO REQUEST IS LEFT\n");
    }
    let line = run.step(alloc, script, user)?;
    let name = name(if user == 0 { b"alice" } else { b"bob" })?;
    put_line(alloc, out, &name, &line)
}

// The users that were answered, and whether all are through.
fn put_order(
    alloc: Global,
    out: &mut Vec<u8>,
    run: &Watched,
    script: &Script,
) -> Result<(), AllocError>
    requires watched { IsWatched run.now }
    requires script { script_of run.now ≡ script.now }
{
    out.extend_from_slice(b"answered:")?;
    'order: for user in run.order() {
        out.push(b' ')?;
        put_number(alloc, out, u64::from(*user))?;
    }
    if run.flat().finished(script) {
        return out.extend_from_slice(b", and nothing is left\n");
    }
    out.extend_from_slice(b"\n")
}

fn put_place(alloc: Global, out: &mut Vec<u8>, place: Place) -> Result<(), AllocError> {
    match place {
        Place::Reg { user, i } => {
            out.extend_from_slice(b"register ")?;
            put_number(alloc, out, u64::from(i))?;
            out.extend_from_slice(b" of user ")?;
            put_number(alloc, out, u64::from(user))
        }
        Place::SegWord { uid, i } => {
            out.extend_from_slice(b"word ")?;
            put_number(alloc, out, u64::from(i))?;
            out.extend_from_slice(b" of segment ")?;
            put_number(alloc, out, uid.0)
        }
        _ => out.extend_from_slice(b"ANOTHER PLACE"),
    }
}

fn put_way(alloc: Global, out: &mut Vec<u8>, way: Way) -> Result<(), AllocError> {
    match way {
        Way::Boot => out.extend_from_slice(b"there at boot"),
        Way::Made => out.extend_from_slice(b"made"),
        Way::Copied { place, by } => {
            out.extend_from_slice(b"copied from ")?;
            put_place(alloc, out, place)?;
            match by {
                Some(Right::Read) => out.extend_from_slice(b" by the right read"),
                Some(_) => out.extend_from_slice(b" BY ANOTHER RIGHT"),
                None => Ok(()),
            }
        }
    }
}

// When and how the capability came to a place, if there is one.
fn put_origin(
    alloc: Global,
    out: &mut Vec<u8>,
    place: Place,
    origin: Option<Origin>,
) -> Result<(), AllocError> {
    put_place(alloc, out, place)?;
    out.extend_from_slice(b": ")?;
    let Some(origin) = origin else {
        return out.extend_from_slice(b"no capability\n");
    };
    if let Some(stamp) = origin.stamp {
        out.push(b'@')?;
        put_number(alloc, out, u64::from(stamp))?;
        out.push(b' ')?;
    }
    put_way(alloc, out, origin.way)?;
    out.push(b'\n')?;
    Ok(())
}

// The answers to the requests of both users, in an order of their own.
fn put_answers(
    alloc: Global,
    out: &mut Vec<u8>,
    run: &mut Watched,
    script: &Script,
) -> Result<(), AllocError>
    requires watched { IsWatched run.old }
    requires script { script_of run.old ≡ script.now }
    ensures watched { IsWatched run.new }
    ensures script { script_of run.new ≡ script.now }
{
    put_answer(alloc, out, run, script, 0)?;
    put_answer(alloc, out, run, script, 1)?;
    put_answer(alloc, out, run, script, 1)?;
    put_answer(alloc, out, run, script, 0)
}

// What the run left in some places, and where it came from.
fn put_places(alloc: Global, out: &mut Vec<u8>, run: &Watched) -> Result<(), AllocError>
    requires { IsWatched run.now }
{
    let places = [
        Place::Reg { user: 0, i: 0 },
        Place::Reg { user: 0, i: 5 },
        Place::Reg { user: 1, i: 4 },
        Place::Reg { user: 1, i: 5 },
        Place::SegWord { uid: Uid(6), i: 0 },
    ];
    'places: for place in places.iter() {
        put_origin(alloc, out, *place, run.origin(place))?;
    }
    Ok(())
}

fn put_run(alloc: Global, out: &mut Vec<u8>, script: &Script) -> Result<(), AllocError>
    requires { IsWellFormed script.now }
{
    let mut run = Watched::boot(alloc, script)?;
    put_order(alloc, out, &run, script)?;
    put_answers(alloc, out, &mut run, script)?;
    put_order(alloc, out, &run, script)?;
    put_places(alloc, out, &run)
}

/// A run of two users in an order of its own, and the origin of what it left in some places.
pub fn put_origins(alloc: Global, out: &mut Vec<u8>) -> Result<(), AllocError> {
    out.extend_from_slice(b"== where capabilities come from\n")?;
    match read_script(alloc, TEXT) {
        Ok(script) => put_run(alloc, out, &script),
        Err(_) => out.extend_from_slice(b"NO SCRIPT\n"),
    }
}
