// Scripts that write and read pages of full segments in turn.
use crate::end::put;
use std::alloc::{AllocError, Global};

// The pages that the one user reads, and then, behind a listing, those that it reads more.
const FIRST: [u64; 4] = [6, 3, 2, 1];

const THEN: [u64; 15] = [7, 5, 0, 4, 6, 1, 6, 7, 5, 0, 4, 3, 2, 2, 2];

// A line on the first word of a page.
fn put_line(
    alloc: Global,
    out: &mut Vec<u8>,
    front: &[u8],
    page: u64,
    back: &[u8],
) -> Result<(), AllocError> {
    put(alloc, out, front, page.saturating_mul(64))?;
    out.extend_from_slice(back)
}

// A user that makes a full segment, and writes a word of each of its pages.
fn put_writer(alloc: Global, out: &mut Vec<u8>, name: &[u8]) -> Result<(), AllocError> {
    out.extend_from_slice(b"user ")?;
    out.extend_from_slice(name)?;
    out.extend_from_slice(b"\nmkseg r4 r2 a 512 0\n")?;
    'pages: for page in 0..8 {
        put_line(alloc, out, b"write r4 ", page, b" r2\n")?;
    }
    Ok(())
}

fn put_reads(alloc: Global, out: &mut Vec<u8>, pages: &[u64]) -> Result<(), AllocError> {
    'pages: for page in pages {
        put_line(alloc, out, b"read r6 r4 ", *page, b"\n")?;
    }
    Ok(())
}

/// One user, who reads the pages in an order in which it matters which of them leave the frames.
pub(crate) fn one_user(alloc: Global) -> Result<Vec<u8>, AllocError> {
    let mut out = Vec::new(alloc);
    put_writer(alloc, &mut out, b"alice")?;
    put_reads(alloc, &mut out, &FIRST)?;
    out.extend_from_slice(b"list r2\n")?;
    put_reads(alloc, &mut out, &THEN)?;
    Ok(out)
}

// A user that reads each page that it wrote.
fn put_reader(alloc: Global, out: &mut Vec<u8>, name: &[u8]) -> Result<(), AllocError> {
    put_writer(alloc, out, name)?;
    'pages: for page in 0..8 {
        put_line(alloc, out, b"read r5 r4 ", page, b"\n")?;
    }
    Ok(())
}

/// Three users, each of whom reads the pages that it wrote.
pub(crate) fn three_users(alloc: Global) -> Result<Vec<u8>, AllocError> {
    let mut out = Vec::new(alloc);
    put_reader(alloc, &mut out, b"alice")?;
    put_reader(alloc, &mut out, b"bob")?;
    put_reader(alloc, &mut out, b"carol")?;
    Ok(out)
}
