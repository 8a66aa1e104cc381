// What a user's next request will do.
ghost use Rattle.std.specs.Prelude.{◌≡◌, IfOk};
ghost use Rattle.psos_calls.specs.Language.Script.{IsWellFormed};
ghost use Rattle.psos_model.specs.Answer.{next_outcome};
ghost use Rattle.psos_model.specs.Answer.CanStep.{CanStep};

use crate::requests::outcome_of;
use crate::{Flat, Outcome};
use psos_calls::Script;
use std::alloc::{AllocError, Global};

impl Flat {
    /// What user u's next request will do (docs/requests.md, "Answers"); none where there is no such user, or no
    /// request is left to it. `Err` only where memory runs out.
    pub fn next_outcome(
        &self,
        alloc: Global,
        script: &Script,
        user: u8,
    ) -> Result<Option<Outcome>, AllocError>
        requires script { IsWellFormed script.now }
        requires state { CanStep self.now user }
        ensures { IfOk result (λ o. o ≡ next_outcome script.now self.now user) }
    {
        let Some(me) = self.users.get(user) else {
            return Ok(None);
        };
        let Some(request) = me.next_request(script) else {
            return Ok(None);
        };
        let outcome = outcome_of(alloc, self, me, &request)?;
        Ok(Some(outcome))
    }
}
