// What comes next of a request.
ghost use Rattle.std.specs.Prelude.{◌≡◌};
ghost use Rattle.psos_core.specs.Plans.{is_known};

use psos_calls::Next;

/// What is known of what the plan of a user's next request does next.
#[derive(Drop)]
pub(crate) enum Upcoming {
    /// There is no next request.
    Nothing,
    /// The plan does this.
    Known(Next),
    /// It closes, and how is still to be had: the names of a listing take memory, which was wanting.
    Close,
}

impl Upcoming {
    /// Whether nothing of it is still to be had.
    pub fn is_known(&self) -> bool
        ensures { result ≡ is_known self.now }
    {
        !matches!(self, Upcoming::Close)
    }
}
