// Numbers in decimal digits.
ghost use Rattle.std.specs.Prelude.{◌≡◌, ◌≢◌, ℕ, ◌<◌, ◌^◌, ◌++◌, decimal, IfOk, IsErr, OnOk, OnErr};
ghost use Rattle.std.specs.List.{list_all};
ghost use Rattle.std.specs.Option.{ok_or};
ghost use Rattle.psos_text.specs.Number.{is_digit as digit, is_numeral as numeral, number_of};

use crate::fault::TextFault;
use itoa::Buffer;
use std::alloc::{AllocError, Global};
use std::str;

/// The number below 2^64 that decimal digits spell, with no leading zero but `0` itself, and no sign. The only fault
/// is `TextFault::Number`, exactly where the bytes are no such text.
pub fn read_number(b: &[u8]) -> Result<u64, TextFault>
    ensures value { result ≡ ok_or (number_of b.now) TextFault.Number }
    ensures spelled { IfOk result (λ n. b.now ≡ decimal n) }
    ensures fault { IsErr result → (n : ℕ) → n < 2 ^ 64 → decimal n ≢ b.now }
{
    match value(b) {
        Some(n) => Ok(n),
        None => Err(TextFault::Number),
    }
}

/// Appends the number in decimal digits, with no leading zero but `0` itself. `Err` only where memory runs out, and
/// then `out` is unchanged.
pub fn put_number(_alloc: Global, out: &mut Vec<u8>, n: u64) -> Result<(), AllocError>
    ensures ok { OnOk result (out.new.items ≡ out.old.items ++ decimal n) }
    ensures err { OnErr result (out.new.items ≡ out.old.items) }
{
    let mut buffer = Buffer::new();
    out.extend_from_slice(buffer.format(n).as_bytes())
}

fn value(b: &[u8]) -> Option<u64>
    ensures { result ≡ number_of b.now }
{
    if !is_numeral(b) {
        return None;
    }
    let Ok(text) = str::from_utf8(b) else {
        return None;
    };
    text.parse().ok()
}

fn is_numeral(b: &[u8]) -> bool
    ensures { result ≡ numeral b.now }
{
    1 <= b.len() && all_digits(b) && (b.len() <= 1 || b[0] != b'0')
}

fn all_digits(b: &[u8]) -> bool
    ensures { result ≡ list_all digit b.now }
{
    b.iter().all(|d| is_digit(*d))
}

fn is_digit(b: u8) -> bool
    ensures { result ≡ digit b }
{
    b'0' <= b && b <= b'9'
}
