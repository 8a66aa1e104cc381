// A journal and a member behind different locks.
ghost use Rattle.psos_journal.specs.Views.{AreNamed};

use crate::last::last_of;
use psos_journal::{Ground, Journal, Member, Names, StopCause};
use std::alloc::Global;
use std::marker::Brand;
use std::sync::{Mutex, Wait};
use std::thread::{Threads, join};

/// Whether the member is told, after two threads took both locks and asked. None only where memory runs out.
pub(crate) fn is_told<R: Threads + Wait + Sync>(rt: &R, alloc: Global) -> Option<bool> {
    let Ok(ground) = Ground::new(alloc, 2, 4) else {
        return None;
    };
    beside::<Brand, R>(rt, alloc, ground)
}

fn beside<T: Names + Send + Sync, R: Threads + Wait + Sync>(
    rt: &R,
    alloc: Global,
    ground: Ground<u8>,
) -> Option<bool>
    requires { AreNamed ground T.book T.counts T.told T.faults }
{
    let Ok((mut journal, mut members, _tally)) = Journal::<T, u8>::start(alloc, ground) else {
        return None;
    };
    journal.stop(StopCause::Store);
    let journal = Mutex::new(journal);
    let member = Mutex::new(last_of(&mut members)?);
    join(
        rt,
        || heard(rt, &journal, &member),
        || heard(rt, &journal, &member),
    );
    Some(member.into_inner().told())
}

// The member is behind its lock while the journal's is taken.
fn heard<T: Names, R: Wait>(
    rt: &R,
    journal: &Mutex<Journal<T, u8>>,
    member: &Mutex<Member<T, u8>>,
) {
    let mut member = member.lock(rt);
    journal.lock(rt).tell(&mut *member);
}
