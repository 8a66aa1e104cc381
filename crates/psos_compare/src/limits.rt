// Scripts at the limits of the language, and what the reader says of them.
use psos_script::{ReadFault, read_script};
use psos_text::put_number;
use std::alloc::{AllocError, Global};

// What the reader says.
fn put_answer(alloc: Global, out: &mut Vec<u8>, bytes: &[u8]) -> Result<(), AllocError> {
    match read_script(alloc, bytes) {
        Ok(_) => out.extend_from_slice(b"a script\n"),
        Err(ReadFault::Memory(e)) => Err(e),
        Err(ReadFault::Script(fault)) => {
            out.extend_from_slice(b"line ")?;
            put_number(alloc, out, u64::from(fault.line))?;
            out.extend_from_slice(b": ")?;
            out.extend_from_slice(fault.cause.text())?;
            out.extend_from_slice(b"\n")
        }
    }
}

// The text so many times.
fn put_times(out: &mut Vec<u8>, text: &[u8], times: usize) -> Result<(), AllocError> {
    'times: for _ in 0..times {
        out.extend_from_slice(text)?;
    }
    Ok(())
}

// What it says of a front, a piece so many times, and a back.
fn put_answer_of(
    alloc: Global,
    out: &mut Vec<u8>,
    front: &[u8],
    piece: &[u8],
    times: usize,
    back: &[u8],
) -> Result<(), AllocError> {
    let mut bytes = Vec::new(alloc);
    bytes.extend_from_slice(front)?;
    put_times(&mut bytes, piece, times)?;
    bytes.extend_from_slice(back)?;
    put_answer(alloc, out, &bytes)
}

// So many code blocks, each with a label of its own.
fn put_blocks(alloc: Global, out: &mut Vec<u8>, count: u64) -> Result<(), AllocError> {
    let mut bytes = Vec::new(alloc);
    'blocks: for i in 0..count {
        bytes.extend_from_slice(b"code c")?;
        put_number(alloc, &mut bytes, i)?;
        bytes.extend_from_slice(b"\nmint r4\nend\n")?;
    }
    put_answer(alloc, out, &bytes)
}

/// What the reader says at each limit: of the input, of a line, of a user, of a code block and of their number.
pub fn put_limits(alloc: Global, out: &mut Vec<u8>) -> Result<(), AllocError> {
    let table: [(&[u8], &[u8], usize, &[u8]); 11] = [
        (b"", b"\n", 1_048_577, b""),
        (b"", b"\n", 1_048_569, b"user a\n"),
        (b"user a\n", b"#", 200, b""),
        (b"user a\n", b"#", 201, b""),
        (b"user a\n", b"\xc8", 201, b""),
        (b"user a\n", b"mint r4\n", 239, b"phase\n"),
        (b"user a\n", b"mint r4\n", 240, b"phase\n"),
        (b"user a\n", b"phase\n", 240, b"mint r4\n"),
        (b"code a\n", b"mint r4\n", 16, b"end\nuser a\n"),
        (b"code a\n", b"mint r4\n", 17, b"end\nuser a\n"),
        (b"user a\n", b"mint r4\n", 240, b"call r4\n"),
    ];
    out.extend_from_slice(b"== the limits of scripts\n")?;
    'rows: for (front, piece, times, back) in table.iter() {
        put_answer_of(alloc, out, front, piece, *times, back)?;
    }
    put_blocks(alloc, out, 65)
}
