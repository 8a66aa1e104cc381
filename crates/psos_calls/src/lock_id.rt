// The locks under which levels are called.
use crate::Level;

/// A lock: a level other than 12, with part 0; or the mailbox of a user, with level 12 and that user's number.
#[derive(Clone, Copy)]
pub struct LockId {
    pub level: Level,
    pub part: u8,
}
