//! How a plan closes (docs/requests.md, "Plans").
ghost use Rattle.std.specs.Prelude.{◌≡◌};
ghost use Rattle.psos_calls.specs.Language.Replies.{word_reply as reply_of};

use crate::{Effect, Next, Refusal, Reply};
use psos_words::Word;

/// The reply that tells a word.
pub fn word_reply(word: Word) -> Reply
    ensures { result ≡ reply_of word }
{
    match word {
        Word::Data(n) => Reply::Data(n),
        Word::Cap(cap) => Reply::Cap(cap),
    }
}

/// A word goes into a register, and is the reply.
pub fn give(rd: u8, word: Word) -> Next
    ensures { result ≡ Next.Close (reply_of word) (Effect.Put rd word) }
{
    Next::Close(word_reply(word), Effect::Put(rd, word))
}

/// A refusal has no effect.
pub fn refuse(refusal: Refusal) -> Next
    ensures { result ≡ Next.Close (Reply.No refusal) Effect.Nothing }
{
    Next::Close(Reply::No(refusal), Effect::Nothing)
}

/// It was done.
pub fn fine() -> Next
    ensures { result ≡ Next.Close Reply.Fine Effect.Nothing }
{
    Next::Close(Reply::Fine, Effect::Nothing)
}

/// A body is entered.
pub fn enter(label: u8, link: Word) -> Next
    ensures { result ≡ Next.Close Reply.Fine (Effect.Enter label link) }
{
    Next::Close(Reply::Fine, Effect::Enter { label, link })
}
