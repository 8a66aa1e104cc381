// The words of answers.
use psos_calls::{Kind, LevelAnswer, Refusal, Right, Tab};

/// How the text of an answer begins.
pub fn answer_text<P>(answer: &LevelAnswer<P>) -> &'static [u8] {
    match answer {
        LevelAnswer::Done => b"done",
        LevelAnswer::Entered { .. } => b"entered ",
        LevelAnswer::Got(_) => b"got ",
        LevelAnswer::Is(_) => b"is a ",
        LevelAnswer::Guard(_) => b"guard ",
        LevelAnswer::Rep(_) => b"representation ",
        LevelAnswer::At { .. } => b"page and place ",
        LevelAnswer::Slot(_) => b"slot ",
        LevelAnswer::Len(_) => b"length ",
        LevelAnswer::Whole(_) => b"a page",
        LevelAnswer::New(_) => b"new",
        LevelAnswer::No(_) => b"no ",
    }
}

/// The text of a kind.
pub fn kind_text(kind: Kind) -> &'static [u8] {
    match kind {
        Kind::Segment => b"segment",
        Kind::Directory => b"directory",
        Kind::Typ => b"type",
        Kind::Object => b"object",
        Kind::Code => b"code",
        Kind::Process => b"process",
    }
}

/// How the text of a refusal begins.
pub fn refusal_text(refusal: Refusal) -> &'static [u8] {
    match refusal {
        Refusal::Absent(_) => b"absent ",
        Refusal::Lacks(right) => lacking_text(right),
        Refusal::Guarded(_) => b"guarded ",
        Refusal::Range => b"range",
        Refusal::NotEmpty => b"not empty",
        Refusal::Exhausted(tab) => exhausted_text(tab),
        Refusal::Empty => b"empty",
        Refusal::WrongType => b"wrong type",
        _ => b"of another kind",
    }
}

// The text of a right that is lacking.
fn lacking_text(right: Right) -> &'static [u8] {
    match right {
        Right::Read => b"lacks read",
        Right::Window => b"lacks window",
        Right::Bind => b"lacks bind",
        Right::Make => b"lacks make",
        Right::Impl => b"lacks impl",
        Right::Enter => b"lacks enter",
        Right::Send => b"lacks send",
        _ => b"lacks another right",
    }
}

// The text of a table that is full.
fn exhausted_text(tab: Tab) -> &'static [u8] {
    match tab {
        Tab::Objects => b"exhausted objects",
        Tab::Windows => b"exhausted windows",
        Tab::Mailbox => b"exhausted mailbox",
        Tab::Path => b"exhausted path",
        _ => b"exhausted",
    }
}
