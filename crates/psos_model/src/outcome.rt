// What a request does.
ghost use Rattle.std.specs.Prelude.{◌≡◌, [], Some, None};
ghost use Rattle.psos_calls.specs.Language.Capabilities.{uid as uid_of};
ghost use Rattle.psos_model.specs.Flat.Places.{reg_place};
ghost use Rattle.psos_model.specs.Answer.Outcomes.{refuse, gives, does, by, own};

use crate::{ChangeList, Place, Source};
use psos_calls::close::word_reply;
use psos_calls::{Effect, Private, Refusal, Reply, Right};
use psos_words::Word;

/// What a request does: changes of what users share, one effect on its user's own part, the place that it read, if
/// any, and the reply.
#[derive(Drop)]
pub struct Outcome {
    pub changes: ChangeList,
    pub effect: Effect,
    pub source: Option<Source>,
    pub reply: Reply,
}

/// A refusal does nothing.
pub(crate) fn refuse(refusal: Refusal) -> Outcome
    ensures { result ≡ refuse refusal }
{
    Outcome {
        changes: ChangeList::none(),
        effect: Effect::Nothing,
        source: None,
        reply: Reply::No(refusal),
    }
}

/// A word goes into a register, and is the reply.
pub(crate) fn gives(changes: ChangeList, rd: u8, word: Word, source: Option<Source>) -> Outcome
    ensures { result ≡ gives changes rd word source }
{
    Outcome {
        changes,
        effect: Effect::Put(rd, word),
        source,
        reply: word_reply(word),
    }
}

/// Changes alone.
pub(crate) fn does(changes: ChangeList, source: Option<Source>) -> Outcome
    ensures { result ≡ does changes source }
{
    Outcome {
        changes,
        effect: Effect::Nothing,
        source,
        reply: Reply::Fine,
    }
}

/// Read from a place by a right.
pub(crate) fn by(place: Place, right: Right) -> Option<Source>
    ensures { result ≡ by place right }
{
    Some(Source {
        place,
        by: Some(right),
    })
}

/// Read from a private place.
pub(crate) fn own(place: Place) -> Option<Source>
    ensures { result ≡ own place }
{
    Some(Source { place, by: None })
}

/// The place of a register that a request of this user names: of the innermost open body, or of the user
/// (docs/system.md, "Places").
pub fn reg_place(me: &Private, i: u8) -> Place
    ensures { result ≡ reg_place me.now me.now.frames i }
{
    let depth = me.open_bodies();
    if depth == 0 {
        return Place::Reg {
            user: me.number(),
            i,
        };
    }
    Place::FrameReg {
        user: me.number(),
        depth: (depth - 1) as u8,
        i,
    }
}
