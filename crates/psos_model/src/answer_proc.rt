// Outcomes of processes and procedure records.
ghost use Rattle.std.specs.Prelude.{◌≡◌, ◌<◌};
ghost use Rattle.psos_calls.specs.Language.User.{CanMake};
ghost use Rattle.psos_model.specs.Answer.Processes.{answer_send, answer_recv, answer_call};

use crate::guards::barred;
use crate::outcome::{by, does, gives, own, refuse, reg_place};
use crate::{Change, ChangeList, Flat, Outcome, Place};
use psos_calls::{Effect, Kind, Private, Refusal, Reply, Right, Tab, has};
use psos_caps::Rights;
use psos_limits::{CALL_CHARGE, MOST_CHARGE, MOST_FRAMES, MOST_MESSAGES};
use psos_words::Word;

pub(crate) fn answer_send(flat: &Flat, me: &Private, rp: u8, rv: u8) -> Outcome
    requires { (rp < 16) × (rv < 16) }
    ensures value { result ≡ answer_send flat.now me.now rp rv }
    ensures fits { CanMake me.now result.effect }
{
    let Word::Cap(to) = me.here(rp) else {
        return refuse(Refusal::NotCap);
    };
    let Some(mailbox) = flat.boxes.get(to.uid().0) else {
        return refuse(Refusal::Absent(Kind::Process));
    };
    if !has(to, Right::Send) {
        return refuse(Refusal::Lacks(Right::Send));
    }
    let word = me.here(rv);
    if let Some(bit) = barred(Rights::of(1), word) {
        return refuse(Refusal::Guarded(bit));
    }
    if mailbox.len() >= MOST_MESSAGES {
        return refuse(Refusal::Exhausted(Tab::Mailbox));
    }
    does(
        ChangeList::one(Change::Post {
            uid: to.uid().0,
            word,
        }),
        own(reg_place(me, rv)),
    )
}

pub(crate) fn answer_recv(flat: &Flat, me: &Private, rd: u8) -> Outcome
    requires { rd < 16 }
    ensures value { result ≡ answer_recv flat.now me.now rd }
    ensures fits { CanMake me.now result.effect }
{
    let Some(mailbox) = flat.boxes.get(me.process().0) else {
        return refuse(Refusal::Empty);
    };
    let Some(word) = mailbox.first() else {
        return refuse(Refusal::Empty);
    };
    gives(
        ChangeList::one(Change::Draw {
            uid: me.process().0,
        }),
        rd,
        word,
        own(Place::BoxAt {
            uid: me.process(),
            i: 0,
        }),
    )
}

pub(crate) fn answer_call(flat: &Flat, me: &Private, rp: u8) -> Outcome
    requires { rp < 16 }
    ensures value { result ≡ answer_call flat.now me.now rp }
    ensures fits { CanMake me.now result.effect }
{
    let Word::Cap(cap) = me.here(rp) else {
        return refuse(Refusal::NotCap);
    };
    if me.open_bodies() >= MOST_FRAMES {
        return refuse(Refusal::Exhausted(Tab::Frames));
    }
    if usize::from(me.charge()) + CALL_CHARGE > MOST_CHARGE {
        return refuse(Refusal::Exhausted(Tab::Requests));
    }
    let Some(code) = flat.codes.get(cap.uid().0) else {
        return refuse(Refusal::Absent(Kind::Code));
    };
    if !has(cap, Right::Enter) {
        return refuse(Refusal::Lacks(Right::Enter));
    }
    Outcome {
        changes: ChangeList::none(),
        effect: Effect::Enter {
            label: code.label,
            link: code.link,
        },
        source: by(Place::Link { uid: cap.uid() }, Right::Enter),
        reply: Reply::Fine,
    }
}
