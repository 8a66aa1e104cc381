// What the users of a run tell one another between two phases.
ghost use Rattle.std.specs.Prelude.{◌<◌, length};
ghost use Rattle.psos_locks.specs.Users.{AreUsers, AreThrough, AllMet};
ghost use Rattle.psos_locks.specs.Stages.{CanMeet, HasMetAll};

use crate::run::Run;
use crate::user::UserState;

// User i takes a receipt of each user's last entry, and goes to the next phase.
fn meet_all<T: Run>(users: &mut [UserState<T>], i: usize, next: u32)
    requires user { i < length users.old }
    requires ready { CanMeet T.script next users.old i }
    ensures { HasMetAll users.old i users.new }
{
    'others: for v in 0..users.len() {
        let other = &users[v];
        let receipt = other.own.receipt();
        let user = &mut users[i];
        user.own.keep(v, receipt);
    }
    let user = &mut users[i];
    user.own.advance(next);
}

/// Each user takes a receipt of the last entry of each, and all go to the next phase, when nobody has an open body or asks
/// anything more of the one before it. It takes no memory (docs/levels.md, "Phases").
pub(crate) fn meet<T: Run>(users: &mut [UserState<T>], next: u32)
    requires users { AreUsers T.script users.old }
    requires through { AreThrough T.script next users.old }
    ensures users { AreUsers T.script users.new }
    ensures met { AllMet users.old users.new }
{
    'users: for i in 0..users.len() {
        meet_all(users, i, next);
    }
}
