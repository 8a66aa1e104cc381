// The answer to a user's next request.
ghost use Rattle.std.specs.Prelude.{◌≡◌, IfOk, OnOk, OnErr};
ghost use Rattle.psos_calls.specs.Language.Script.{IsWellFormed};
ghost use Rattle.psos_model.specs.Answer.{answer, silence};
ghost use Rattle.psos_model.specs.Answer.CanStep.{CanStep, IsAnswer};

use crate::Flat;
use crate::requests::outcome_of;
use psos_calls::{Answer, Reply, Script};
use std::alloc::{AllocError, Global};

impl Flat {
    /// Answers user u's next request. Where there is no such user, or no request is left to it, nothing changes, and
    /// the answer is `ok` at place 0. `Err` only where memory runs out: nothing is changed.
    pub fn step(&mut self, alloc: Global, script: &Script, user: u8) -> Result<Answer, AllocError>
        requires script { IsWellFormed script.now }
        requires state { CanStep self.old user }
        ensures state { OnOk result (self.new ≡ (answer script.now self.old user).0) }
        ensures answer { IfOk result (λ a. IsAnswer a (answer script.now self.old user).1) }
        ensures err { OnErr result (self.new ≡ self.old) }
    {
        let Some(me) = self.users.get(user) else {
            return Ok(silence());
        };
        let Some(request) = me.next_request(script) else {
            return Ok(silence());
        };
        let (n, m) = me.place();
        let outcome = outcome_of(alloc, self, me, &request)?;
        self.apply_all(alloc, &outcome.changes)?;
        self.users.settle(user, &outcome.effect, script);
        Ok(Answer {
            n,
            m,
            reply: outcome.reply,
        })
    }
}

// No user, or no request: nothing is answered.
fn silence() -> Answer
    ensures { IsAnswer result (silence 0) }
{
    Answer {
        n: 0,
        m: 0,
        reply: Reply::Fine,
    }
}
