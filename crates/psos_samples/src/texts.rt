// Names, numbers and words of a text.
use crate::lines::{put_answer, put_option, put_text};
use psos_text::{Name, Tokens, put_hex4, put_number, read_hex4, read_number};
use std::alloc::{AllocError, Global};

// The numbers that are printed stand one behind another.
fn put_printed(alloc: Global, out: &mut Vec<u8>) -> Result<(), AllocError> {
    put_number(alloc, out, 0)?;
    put_number(alloc, out, u64::MAX)?;
    put_hex4(alloc, out, 0x0f3a)?;
    out.extend_from_slice(b"\n")
}

fn put_numbers(alloc: Global, out: &mut Vec<u8>) -> Result<(), AllocError> {
    let greatest = read_number(b"18446744073709551615").ok();
    put_option(alloc, out, b"the greatest number", greatest)?;
    put_answer(
        out,
        b"18446744073709551616 is a number",
        read_number(b"18446744073709551616").is_ok(),
    )?;
    put_answer(out, b"+1 is a number", read_number(b"+1").is_ok())?;
    let digits = match read_hex4(b"0f3a") {
        Ok(number) => Some(u64::from(number)),
        Err(_) => None,
    };
    put_option(alloc, out, b"0f3a in hexadecimal digits", digits)
}

fn put_names(out: &mut Vec<u8>) -> Result<(), AllocError> {
    put_answer(
        out,
        b"0123456789abcdefg is a name",
        Name::read(b"0123456789abcdefg").is_ok(),
    )?;
    let name = Name::read(b"alice_2-x").unwrap_or(Name::default());
    put_text(out, b"a name", name.as_bytes())
}

// The words of a line, each behind its place.
fn put_words(alloc: Global, out: &mut Vec<u8>, line: &[u8]) -> Result<(), AllocError> {
    let mut tokens = Tokens::new(line);
    'words: for _ in 0..line.len() {
        let Some((place, word)) = tokens.next() else {
            return Ok(());
        };
        put_number(alloc, out, place as u64)?;
        out.extend_from_slice(b" ")?;
        out.extend_from_slice(word)?;
        out.extend_from_slice(b"\n")?;
    }
    Ok(())
}

pub(crate) fn put_texts(alloc: Global, out: &mut Vec<u8>) -> Result<(), AllocError> {
    out.extend_from_slice(b"== texts\n")?;
    put_printed(alloc, out)?;
    put_numbers(alloc, out)?;
    put_names(out)?;
    put_words(alloc, out, b"  mint r4 ")
}
