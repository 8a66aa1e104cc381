// Where a lock stands among all.
ghost use Rattle.std.specs.Prelude.{◌≡◌, ◌+◌, ◌<◌, IsTrue};
ghost use Rattle.psos_calls.specs.Locks.Held.{rank, is_lock};
ghost use Rattle.psos_sysproc.specs.Owners.{place};

use psos_calls::{Level, LockId};

/// The number of a level: in the falling order the greater comes earlier.
pub fn rank(level: Level) -> u8
    ensures value { result ≡ rank level }
    ensures low { result < 14 }
{
    match level {
        Level::L13 => 13,
        Level::L12 => 12,
        Level::L11 => 11,
        Level::L10 => 10,
        Level::L9 => 9,
        Level::L8 => 8,
        Level::L7 => 7,
        Level::L0 => 0,
    }
}

/// Where a lock stands among those of so many users: the levels from 0 up, and at level 12 the mailboxes in their order.
pub(crate) fn place(users: usize, lock: LockId) -> usize
    requires few { users < 256 }
    requires lock { IsTrue (is_lock users lock) }
    ensures value { result ≡ place users lock }
    ensures within { result < 7 + users }
{
    match lock.level {
        Level::L13 => 6 + users,
        Level::L12 => 6 + lock.part as usize,
        Level::L11 => 5,
        Level::L10 => 4,
        Level::L9 => 3,
        Level::L8 => 2,
        Level::L7 => 1,
        Level::L0 => 0,
    }
}
