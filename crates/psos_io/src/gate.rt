// What is told of a run while it goes, so that a test can stop it at a chosen place.

/// Is told of each level call and of each close. No clause says what a gate does.
pub trait Gate {
    /// A call of this level by this user begins, and the lock of that level is held.
    fn at(&self, user: u8, level: u8);

    /// A request of this user was closed, and all its locks are released.
    fn closed(&self, user: u8);
}

/// A gate that does nothing.
#[derive(Clone, Copy, Debug)]
pub struct NoGate;

impl Gate for NoGate {
    fn at(&self, _user: u8, _level: u8) {}

    fn closed(&self, _user: u8) {}
}
