// What a user would do next.
use psos_calls::LockId;

/// What a user would do next: take a lock, call a level under a lock, or close its request (docs/levels.md, "Locks").
#[derive(Clone, Copy)]
pub enum Want {
    Take(LockId),
    Call(LockId),
    Close,
}
