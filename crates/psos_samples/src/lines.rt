// Lines of what calls give.
use psos_text::put_number;
use std::alloc::{AllocError, Global};

/// What is shown, and a text.
pub(crate) fn put_text(out: &mut Vec<u8>, shown: &[u8], text: &[u8]) -> Result<(), AllocError> {
    out.extend_from_slice(shown)?;
    out.extend_from_slice(b": ")?;
    out.extend_from_slice(text)?;
    out.extend_from_slice(b"\n")
}

/// What is shown, and whether it is so.
pub(crate) fn put_answer(out: &mut Vec<u8>, shown: &[u8], is: bool) -> Result<(), AllocError> {
    put_text(out, shown, if is { b"yes" } else { b"no" })
}

/// What is shown, and a number or none.
pub(crate) fn put_option(
    alloc: Global,
    out: &mut Vec<u8>,
    shown: &[u8],
    number: Option<u64>,
) -> Result<(), AllocError> {
    let Some(number) = number else {
        return put_text(out, shown, b"none");
    };
    out.extend_from_slice(shown)?;
    out.extend_from_slice(b": ")?;
    put_number(alloc, out, number)?;
    out.extend_from_slice(b"\n")
}

/// What is shown, and how many there are.
pub(crate) fn put_count(
    alloc: Global,
    out: &mut Vec<u8>,
    shown: &[u8],
    count: usize,
) -> Result<(), AllocError> {
    put_option(alloc, out, shown, Some(count as u64))
}
