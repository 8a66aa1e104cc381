// Numbers in four hexadecimal digits.
ghost use Rattle.std.specs.Prelude.{◌≡◌, ◌≢◌, ℕ, ◌<◌, ◌^◌, ◌++◌, IfSome, IfOk, IsErr, OnOk, OnErr};
ghost use Rattle.std.specs.Option.{ok_or};
ghost use Rattle.psos_text.specs.Hex.{hex_digit, hex4, digit_of, hex_of};

use crate::fault::TextFault;
use std::alloc::{AllocError, Global};

/// The number that four digits `0` to `9` and `a` to `f` spell, the highest digit first. The only fault is
/// `TextFault::Hex`, exactly where the bytes are no such text.
pub fn read_hex4(b: &[u8]) -> Result<u16, TextFault>
    ensures value { result ≡ ok_or (hex_of b.now) TextFault.Hex }
    ensures spelled { IfOk result (λ n. b.now ≡ hex4 n) }
    ensures fault { IsErr result → (n : ℕ) → n < 2 ^ 16 → hex4 n ≢ b.now }
{
    match value(b) {
        Some(n) => Ok(n),
        None => Err(TextFault::Hex),
    }
}

/// Appends the number in four digits `0` to `9` and `a` to `f`, the highest digit first. `Err` only where memory runs
/// out, and then `out` is unchanged.
pub fn put_hex4(_alloc: Global, out: &mut Vec<u8>, h: u16) -> Result<(), AllocError>
    ensures ok { OnOk result (out.new.items ≡ out.old.items ++ hex4 h) }
    ensures err { OnErr result (out.new.items ≡ out.old.items) }
{
    let digits = [
        digit((h / 4096 % 16) as u8),
        digit((h / 256 % 16) as u8),
        digit((h / 16 % 16) as u8),
        digit((h % 16) as u8),
    ];
    out.extend_from_slice(&digits)
}

#[tactic(auto, unfolding(crate::specs::Hex::hex_of))]
fn value(b: &[u8]) -> Option<u16>
    ensures { result ≡ hex_of b.now }
{
    let [p, q, r, s] = b else {
        return None;
    };
    let p = u16::from(digit_value(*p)?);
    let q = u16::from(digit_value(*q)?);
    let r = u16::from(digit_value(*r)?);
    let s = u16::from(digit_value(*s)?);
    Some(((p * 16 + q) * 16 + r) * 16 + s)
}

#[tactic(auto, unfolding(crate::specs::Hex::digit_of))]
fn digit_value(c: u8) -> Option<u8>
    ensures value { result ≡ digit_of c }
    ensures small { IfSome result (λ d. d < 16) }
{
    if b'0' <= c && c <= b'9' {
        return Some(c - b'0');
    }
    if b'a' <= c && c <= b'f' {
        return Some(c - 87);
    }
    None
}

fn digit(d: u8) -> u8
    requires { d < 16 }
    ensures { result ≡ hex_digit d }
{
    if d < 10 { b'0' + d } else { 87 + d }
}
