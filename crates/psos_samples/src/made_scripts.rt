// A script that is made from a number.
use psos_load::script_text;
use std::alloc::{AllocError, Global};

// The first two lines of a seed.
pub(crate) fn put_script(alloc: Global, out: &mut Vec<u8>) -> Result<(), AllocError> {
    out.extend_from_slice(b"== a made script\n")?;
    let text = script_text(alloc, 1, 2, 1)?;
    out.extend_from_slice(&text)
}
