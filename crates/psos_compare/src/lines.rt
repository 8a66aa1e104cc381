// Printed lines, whatever their stamp and their reply.
use psos_calls::{Line, Names, Refusal, Reply, Right, Tab};
use psos_caps::from_payload;
use psos_print::{line_len, put_line};
use psos_text::{Name, put_number};
use std::alloc::{AllocError, Global};

/// A name of these bytes, which are one.
pub fn name(bytes: &[u8]) -> Result<Name, AllocError> {
    match Name::read(bytes) {
        Ok(name) => Ok(name),
        Err(_) => Err(AllocError),
    }
}

// How long the line is, and the line.
fn put_one(alloc: Global, out: &mut Vec<u8>, user: &[u8], line: Line) -> Result<(), AllocError> {
    let name = name(user)?;
    put_number(alloc, out, line_len(&name, &line) as u64)?;
    out.extend_from_slice(b": ")?;
    put_line(alloc, out, &name, &line)
}

// The answer to alice's first request.
fn plain(stamp: u32, reply: Reply) -> Line {
    Line {
        user: 0,
        n: 1,
        m: 0,
        stamp,
        reply,
    }
}

// The answer to the second line in bodies under bob's third request.
fn inside(stamp: u32, reply: Reply) -> Line {
    Line {
        user: 1,
        n: 3,
        m: 2,
        stamp,
        reply,
    }
}

/// A line with each kind of reply, behind its length.
pub fn put_lines(alloc: Global, out: &mut Vec<u8>) -> Result<(), AllocError> {
    let Some(cap) = from_payload((0xffff << 64) + 7) else {
        return Err(AllocError);
    };
    let mut names = Names::empty(alloc);
    names.push(name(b"b")?)?;
    names.push(name(b"doc")?)?;
    let none = Names::empty(alloc);
    out.extend_from_slice(b"== lines, each behind its length\n")?;
    put_one(alloc, out, b"alice", plain(0, Reply::Fine))?;
    put_one(alloc, out, b"alice", plain(0, Reply::Cap(cap)))?;
    put_one(
        alloc,
        out,
        b"bob",
        inside(4294967295, Reply::Data(u64::MAX)),
    )?;
    put_one(alloc, out, b"bob", inside(9, Reply::Names(names)))?;
    put_one(alloc, out, b"bob", inside(9, Reply::Names(none)))?;
    let refusals = [
        Refusal::Exhausted(Tab::Windows),
        Refusal::Lacks(Right::Lookup),
        Refusal::Guarded(2),
    ];
    'refusals: for refusal in refusals.iter() {
        put_one(alloc, out, b"bob", inside(17, Reply::No(*refusal)))?;
    }
    Ok(())
}
