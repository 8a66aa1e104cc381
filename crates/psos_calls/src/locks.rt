// The lock of a call.
ghost use Rattle.std.specs.Prelude.{◌≡◌};
ghost use Rattle.psos_calls.specs.Levels.{level_of};
ghost use Rattle.psos_calls.specs.Locks.{box_of, part_of, lock_of};

use crate::{Level, LevelCall, LockId};

/// The lock of a call of its level, among so many users (docs/levels.md, "Locks").
pub fn lock_of(users: u8, level: Level, call: &LevelCall) -> LockId
    requires { level_of call.now ≡ level }
    ensures { result ≡ lock_of users call.now }
{
    LockId {
        level,
        part: part_of(users, call),
    }
}

/// The part of a call's lock: the number of the user whose mailbox the call names, and else 0.
pub fn part_of(users: u8, call: &LevelCall) -> u8
    ensures { result ≡ part_of users call.now }
{
    match *call {
        LevelCall::Post { to, .. } => box_of(users, to.uid().0),
        LevelCall::Draw { uid } => box_of(users, uid.0),
        _ => 0,
    }
}

// The number of the user whose process this is, and 0 where there is none.
fn box_of(users: u8, uid: u64) -> u8
    ensures { result ≡ box_of users uid }
{
    if uid >= 3 && (uid - 3) % 4 == 0 && (uid - 3) / 4 < u64::from(users) {
        ((uid - 3) / 4) as u8
    } else {
        0
    }
}
