// Draws of turns, and locks of two users.
ghost use Rattle.std.specs.Prelude.{◌≡◌, ◌<◌, length, IsTrue};
ghost use Rattle.psos_calls.specs.Locks.Held.{is_lock};
ghost use Rattle.psos_sysproc.specs.Wants.{is_known};

use crate::report::Report;
use crate::stop::Stop;
use psos_calls::{Level, LockId};
use psos_sysproc::Want::{Call, Close, Take};
use psos_sysproc::{Table, Turns, Want};

const OTHER_BOX: LockId = LockId {
    level: Level::L12,
    part: 1,
};

const OWN_BOX: LockId = LockId {
    level: Level::L12,
    part: 0,
};

const DIRECTORIES: LockId = LockId {
    level: Level::L10,
    part: 0,
};

const SEGMENTS: LockId = LockId {
    level: Level::L8,
    part: 0,
};

const PAGES: LockId = LockId {
    level: Level::L7,
    part: 0,
};

/// The first draws of a seed, and what two users may do.
pub fn show(report: &mut Report) -> Result<(), Stop> {
    report.library(b"psos_sysproc");
    draws(report);
    let mut table = Table::new(report.alloc(), 2)?;
    first(report, &mut table);
    second(report, &mut table);
    table.release(0);
    may(report, b"0 calls segments", &table, 0, Call(SEGMENTS));
    may(report, b"1 takes the box of 1", &table, 1, Take(OTHER_BOX));
    may(report, b"1 takes segments", &table, 1, Take(SEGMENTS));
    Ok(())
}

// The seeds 1 and 65,537 have the same draws.
fn draws(report: &mut Report) {
    let mut all = Turns::new(1);
    let mut turns = Turns::new(1);
    let mut same = Turns::new(65_537);
    'draws: for _ in 0..6 {
        report.number(b"drawn", u64::from(all.draw()));
        report.number(b"of 255 users", u64::from(turns.pick(255)));
        report.number(b"of one user", u64::from(same.pick(1)));
    }
    report.truth(b"drawn alike", same.draw() == all.draw());
}

// User 0 takes the mailbox of user 1.
fn first(report: &mut Report, table: &mut Table)
    requires { length table.old ≡ 2 }
    ensures { length table.new ≡ 2 }
{
    may(report, b"0 closes", table, 0, Close);
    may(report, b"0 calls the box of 1", table, 0, Call(OTHER_BOX));
    may(report, b"0 takes the box of 1", table, 0, Take(OTHER_BOX));
    take(table, OTHER_BOX);
    may(report, b"0 calls the box of 1", table, 0, Call(OTHER_BOX));
    may(report, b"1 calls the box of 1", table, 1, Call(OTHER_BOX));
    // Another mailbox is free, but not for who holds one.
    may(report, b"1 takes the box of 1", table, 1, Take(OTHER_BOX));
    may(report, b"1 takes the box of 0", table, 1, Take(OWN_BOX));
    may(report, b"0 takes the box of 0", table, 0, Take(OWN_BOX))
}

// User 0 takes level 8. Level 10 comes before it, and level 7 after it.
fn second(report: &mut Report, table: &mut Table)
    requires { length table.old ≡ 2 }
    ensures { length table.new ≡ 2 }
{
    may(report, b"0 takes segments", table, 0, Take(SEGMENTS));
    take(table, SEGMENTS);
    may(report, b"1 takes segments", table, 1, Take(SEGMENTS));
    may(report, b"0 takes directories", table, 0, Take(DIRECTORIES));
    may(report, b"0 takes pages", table, 0, Take(PAGES))
}

// Whether a user may do what it wants.
fn may(report: &mut Report, what: &[u8], table: &Table, user: u8, want: Want)
    requires users { length table.now ≡ 2 }
    requires user { user < 2 }
    requires lock { IsTrue (is_known 2 want) }
{
    report.truth(what, table.enabled(user, want));
}

// User 0 takes a lock, where it may.
fn take(table: &mut Table, lock: LockId)
    requires users { length table.old ≡ 2 }
    requires lock { IsTrue (is_lock 2 lock) }
    ensures { length table.new ≡ 2 }
{
    if table.enabled(0, Take(lock)) {
        table.take(0, lock);
    }
}
