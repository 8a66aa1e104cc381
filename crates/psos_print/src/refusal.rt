// Why a request was refused.
ghost use Rattle.std.specs.Prelude.{◌≡◌, ◌≤◌, ◌+◌, ◌++◌, length};
ghost use Rattle.psos_model.specs.Text.Transcript.{kind_text, right_text, tab_text, refusal_text};

use crate::tail::Tail;
use psos_calls::{Kind, Refusal, Right, Tab};

pub(crate) fn kind_word(kind: Kind) -> &'static [u8]
    ensures word { result.now ≡ kind_text kind }
    ensures few { length result.now ≤ 9 }
{
    match kind {
        Kind::Segment => b"segment",
        Kind::Directory => b"directory",
        Kind::Typ => b"type",
        Kind::Object => b"object",
        Kind::Code => b"code",
        Kind::Process => b"process",
    }
}

pub(crate) fn right_word(right: Right) -> &'static [u8]
    ensures word { result.now ≡ right_text right }
    ensures few { length result.now ≤ 9 }
{
    match right {
        Right::Read => b"read",
        Right::Write => b"write",
        Right::Window => b"window",
        Right::Lookup => b"lookup",
        Right::Bind => b"bind",
        Right::Unbind => b"unbind",
        Right::List => b"list",
        Right::Create => b"create",
        Right::Delete => b"delete",
        Right::Make => b"make",
        Right::Impl => b"impl",
        Right::Enter => b"enter",
        Right::Send => b"send",
    }
}

pub(crate) fn tab_word(tab: Tab) -> &'static [u8]
    ensures word { result.now ≡ tab_text tab }
    ensures few { length result.now ≤ 9 }
{
    match tab {
        Tab::Objects => b"objects",
        Tab::Windows => b"windows",
        Tab::Entries => b"entries",
        Tab::Mailbox => b"mailbox",
        Tab::Path => b"path",
        Tab::Frames => b"frames",
        Tab::Requests => b"requests",
    }
}

#[tactic(auto, using(std::proofs::lemmas::List::append_assoc))]
fn prepend_words(line: &mut Tail, first: &[u8], second: &[u8])
    requires { length line.old + (length first.now + length second.now) ≤ 128 }
    ensures text { line.new ≡ (first.now ++ second.now) ++ line.old }
    ensures few { length line.new ≡ length line.old + (length first.now + length second.now) }
{
    line.prepend(second);
    line.prepend(first);
}

#[tactic(auto, using(std::proofs::lemmas::List::append_assoc))]
fn prepend_guarded(line: &mut Tail, bit: u8)
    requires { length line.old + 28 ≤ 128 }
    ensures text { line.new ≡ refusal_text (Refusal.Guarded bit) ++ line.old }
    ensures few { length line.new ≤ length line.old + 28 }
{
    line.prepend_number(u64::from(bit));
    line.prepend(b"guarded ");
}

pub(crate) fn prepend_refusal(line: &mut Tail, refusal: Refusal)
    requires { length line.old + 40 ≤ 128 }
    ensures text { line.new ≡ refusal_text refusal ++ line.old }
    ensures few { length line.new ≤ length line.old + 40 }
{
    match refusal {
        Refusal::Absent(kind) => prepend_words(line, b"absent ", kind_word(kind)),
        Refusal::Lacks(right) => prepend_words(line, b"lacks ", right_word(right)),
        Refusal::Guarded(bit) => prepend_guarded(line, bit),
        Refusal::Exhausted(tab) => prepend_words(line, b"exhausted ", tab_word(tab)),
        Refusal::NotCap => line.prepend(b"not cap"),
        Refusal::NotData => line.prepend(b"not data"),
        Refusal::Range => line.prepend(b"range"),
        Refusal::NameTaken => line.prepend(b"name taken"),
        Refusal::UnknownName => line.prepend(b"unknown name"),
        Refusal::Distinguished => line.prepend(b"distinguished"),
        Refusal::NotDistinguished => line.prepend(b"not distinguished"),
        Refusal::NotEmpty => line.prepend(b"not empty"),
        Refusal::Empty => line.prepend(b"empty"),
        Refusal::WrongType => line.prepend(b"wrong type"),
        Refusal::Overflow => line.prepend(b"overflow"),
    }
}
