// What was answered.
ghost use Rattle.std.specs.Prelude.{◌≡◌, ◌≤◌, ◌<◌, ◌+◌, ◌∷◌, ◌++◌, false, length, OnOk};
ghost use Rattle.psos_text.specs.Name.{name_text};
ghost use Rattle.psos_text.specs.Hex.{hex4, hex_digit};
ghost use Rattle.psos_model.specs.Text.Transcript.{names_text, reply_text};
ghost use Rattle.psos_print.specs.Line.{lists_names};

use crate::refusal::prepend_refusal;
use crate::tail::Tail;
use psos_calls::Reply;
use psos_caps::Cap;
use psos_text::Name;
use std::alloc::AllocError;

#[tactic(auto, using(std::proofs::lemmas::List::append_assoc))]
fn put_name(out: &mut Vec<u8>, name: &Name) -> Result<(), AllocError>
    ensures { OnOk result (out.new.items ≡ out.old.items ++ 32 ∷ name_text name.now) }
{
    out.extend_from_slice(b" ")?;
    out.extend_from_slice(name.as_bytes())
}

#[tactic(auto, using(std::proofs::lemmas::List::append_assoc))]
pub(crate) fn put_names(out: &mut Vec<u8>, names: &[Name]) -> Result<(), AllocError>
    ensures { OnOk result (out.new.items ≡ out.old.items ++ names_text names.now) }
{
    'names: for name in names {
        put_name(out, name)?;
    }
    Ok(())
}

#[tactic(auto, unfolding(psos_text::specs::Hex::hex_digit))]
fn hex_digit(d: u16) -> u8
    requires { d < 16 }
    ensures { result ≡ hex_digit d }
{
    if d < 10 { b'0' + d as u8 } else { 87 + d as u8 }
}

fn prepend_hex4(line: &mut Tail, h: u16)
    requires { length line.old + 4 ≤ 128 }
    ensures { line.new ≡ hex4 h ++ line.old }
{
    line.prepend_byte(hex_digit(h % 16));
    line.prepend_byte(hex_digit(h / 16 % 16));
    line.prepend_byte(hex_digit(h / 256 % 16));
    line.prepend_byte(hex_digit(h / 4096 % 16));
}

#[tactic(auto, using(std::proofs::lemmas::List::append_assoc))]
fn prepend_cap(line: &mut Tail, cap: Cap)
    requires { length line.old + 29 ≤ 128 }
    ensures text { line.new ≡ reply_text (Reply.Cap cap) ++ line.old }
    ensures few { length line.new ≤ length line.old + 29 }
{
    prepend_hex4(line, cap.rights().bits());
    line.prepend_byte(b' ');
    line.prepend_number(cap.uid().0);
    line.prepend(b"cap ");
}

// A reply other than a list of names.
#[tactic(auto, using(std::proofs::lemmas::List::append_assoc))]
pub(crate) fn prepend_reply(line: &mut Tail, reply: &Reply)
    requires short { lists_names reply.now ≡ false }
    requires room { length line.old + 43 ≤ 128 }
    ensures text { line.new ≡ reply_text reply.now ++ line.old }
    ensures few { length line.new ≤ length line.old + 43 }
{
    match reply {
        Reply::Fine => line.prepend(b"ok"),
        Reply::Data(n) => {
            line.prepend_number(*n);
            line.prepend(b"data ");
        }
        Reply::Cap(cap) => prepend_cap(line, *cap),
        Reply::No(refusal) => {
            prepend_refusal(line, *refusal);
            line.prepend(b"no ");
        }
        Reply::Names(_) => unreachable!(),
    }
}
