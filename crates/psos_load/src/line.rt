// A request line, by a value that was drawn.
ghost use Rattle.std.specs.Prelude.{◌≡◌, ◌++◌, ◌/◌, ◌%◌, decimal, OnOk};
ghost use Rattle.psos_model.specs.Text.Load.{load_line};

use psos_text::{put_hex4, put_number};
use std::alloc::{AllocError, Global};

// A text, a number and a text.
#[tactic(auto, using(std::proofs::lemmas::List::append_assoc))]
fn put_between(
    alloc: Global,
    out: &mut Vec<u8>,
    front: &[u8],
    n: u16,
    back: &[u8],
) -> Result<(), AllocError>
    ensures { OnOk result (out.new.items ≡ out.old.items ++ (front.now ++ (decimal n ++ back.now))) }
{
    out.extend_from_slice(front)?;
    put_number(alloc, out, u64::from(n))?;
    out.extend_from_slice(back)
}

// The line `restrict`, with the value in hexadecimal digits.
#[tactic(auto, using(std::proofs::lemmas::List::append_assoc))]
fn put_restrict(alloc: Global, out: &mut Vec<u8>, x: u16) -> Result<(), AllocError>
    requires { x % 8 ≡ 1 }
    ensures { OnOk result (out.new.items ≡ out.old.items ++ load_line x (x / 8 % 64) (x / 8 % 20)) }
{
    out.extend_from_slice(b"restrict r5 r4 ")?;
    put_hex4(alloc, out, x)?;
    out.extend_from_slice(b"\n")
}

/// Appends the request line of a value that was drawn. The value's low three bits choose the request, and the others a
/// word of 64 or one of twenty names. `Err` only where memory runs out, and a piece of the line may stand in `out`
/// then.
#[tactic(auto, using(std::proofs::lemmas::List::append_assoc))]
pub(crate) fn put_line(alloc: Global, out: &mut Vec<u8>, x: u16) -> Result<(), AllocError>
    ensures { OnOk result (out.new.items ≡ out.old.items ++ load_line x (x / 8 % 64) (x / 8 % 20)) }
{
    let word = x / 8 % 64;
    let name = x / 8 % 20;
    match x % 8 {
        0 => out.extend_from_slice(b"mint r4\n"),
        1 => put_restrict(alloc, out, x),
        2 => put_between(alloc, out, b"set r6 ", x, b"\n"),
        3 => put_between(alloc, out, b"write r3 ", word, b" r2\n"),
        4 => put_between(alloc, out, b"read r7 r3 ", word, b"\n"),
        5 => put_between(alloc, out, b"mkseg r8 r2 n", name, b" 1 0\n"),
        6 => put_between(alloc, out, b"delete r2 n", name, b"\n"),
        _ => put_between(alloc, out, b"lookup r9 r2 n", name, b"\n"),
    }
}
