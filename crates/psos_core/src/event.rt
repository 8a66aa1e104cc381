// An event of a user.
ghost use Rattle.std.specs.Prelude.{◌≡◌};
ghost use Rattle.psos_core.specs.Events.{is_close};

use psos_calls::{Level, LockId};

/// What a user did in one step (docs/levels.md, "Locks"): it took a lock, called a level under a lock that it holds, or
/// closed its request, whose entry is the one at this position. The entry is read from the run and is not given twice,
/// so that no names are copied.
#[derive(Clone, Copy)]
pub enum Event {
    Take(LockId),
    Call(Level),
    Close(u32),
}

impl Event {
    // Whether it closed a request.
    pub(crate) fn is_close(&self) -> bool
        ensures { result ≡ is_close self.now }
    {
        matches!(self, Event::Close(_))
    }
}
