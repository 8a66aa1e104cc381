// A journal of one member.
ghost use Rattle.std.specs.Prelude.{◌≡◌, ℕ, [], slice_get, Some, None};
ghost use Rattle.psos_journal.specs.Views.{AreNamed, Side, new_side};

use psos_journal::{Ground, Journal, Member, Names, StopCause};
use std::alloc::Global;
use std::marker::Brand;

/// What the calls answer.
#[derive(Drop)]
pub(crate) struct Answers {
    pub(crate) has_receipt: bool,
    pub(crate) stamp: u32,
    pub(crate) before: Option<StopCause>,
    pub(crate) first: StopCause,
    pub(crate) second: StopCause,
    pub(crate) heard: Option<StopCause>,
    pub(crate) is_told: bool,
}

/// The answers on a new journal. None only where memory runs out.
pub(crate) fn run(alloc: Global) -> Option<Answers> {
    let Ok(ground) = Ground::new(alloc, 1, 4) else {
        return None;
    };
    stamped::<Brand>(alloc, ground)
}

fn stamped<T: Names>(alloc: Global, ground: Ground<u8>) -> Option<Answers>
    requires size { (ground.members ≡ 1) × (ground.room ≡ 4) }
    requires names { AreNamed ground T.book T.counts T.told T.faults }
{
    let Ok((mut journal, mut members, _tally)) = Journal::<T, u8>::start(alloc, ground) else {
        return None;
    };
    asked(alloc, &mut journal, members.as_mut_slice())
}

// What the calls on the one member answer. Journal and member are lent, so that an early end lets go of nothing.
fn asked<T: Names>(
    alloc: Global,
    journal: &mut Journal<T, u8>,
    members: &mut [Member<T, u8>],
) -> Option<Answers>
    requires journal { (journal.old.left ≡ None) × (journal.old.members ≡ 1) × (journal.old.entries ≡ []) × (journal.old.room ≡ 4) }
    requires members { (k : ℕ) (m : Side ℕ) → slice_get members.old k ≡ Some m → m ≡ new_side k }
{
    let [member] = members else {
        return None;
    };
    let has_receipt = member.receipt().is_some();
    let stamp = entered(alloc, journal, member)?;
    Some(stopped(has_receipt, stamp, journal, member))
}

// One entry is entered into the member that it names.
fn entered<T: Names>(
    alloc: Global,
    journal: &mut Journal<T, u8>,
    member: &mut Member<T, u8>,
) -> Option<u32>
    requires journal { (journal.old.left ≡ None) × (journal.old.members ≡ 1) × (journal.old.entries ≡ []) × (journal.old.room ≡ 4) }
    requires member { member.old.number ≡ 0 }
{
    let Ok(()) = member.room(alloc) else {
        return None;
    };
    let Ok(mut pen) = journal.begin(alloc, 65, 1) else {
        return None;
    };
    journal.enter(&mut pen, member);
    let stamp = journal.finish(pen);
    journal.meets(member);
    Some(stamp)
}

// The journal is stopped twice, and the member asks why.
fn stopped<T: Names>(
    has_receipt: bool,
    stamp: u32,
    journal: &mut Journal<T, u8>,
    member: &mut Member<T, u8>,
) -> Answers {
    Answers {
        has_receipt,
        stamp,
        before: journal.stopped(),
        first: journal.stop(StopCause::Memory),
        second: journal.stop(StopCause::Store),
        heard: journal.tell(member),
        is_told: member.told(),
    }
}
