// A journal of two members.
ghost use Rattle.std.specs.Prelude.{◌≡◌, ℕ, [], length, slice_get, IfSome, Some, None};
ghost use Rattle.psos_journal.specs.declared.stop_cause.StopCause.TheVariants.{Store};
ghost use Rattle.psos_journal.specs.Views.{new_side, AreNamed, Side};

use psos_journal::{BeginFault, Entries, Ground, Journal, Member, Names, StopCause};
use std::alloc::Global;
use std::marker::Brand;

/// What the calls answer, and the entries at the end.
#[derive(Drop)]
pub(crate) struct Answers {
    pub(crate) calls: Calls,
    pub(crate) entries: Entries<u8>,
}

/// What the calls answer.
#[derive(Clone, Copy)]
pub(crate) struct Calls {
    pub(crate) stamps: (u32, u32),
    pub(crate) len: u32,
    pub(crate) receipt: u32,
    pub(crate) is_refused: bool,
    pub(crate) heard: Option<StopCause>,
    pub(crate) told: (bool, bool),
}

/// The answers on a new journal. None only where memory runs out.
pub(crate) fn run(alloc: Global) -> Option<Answers> {
    let Ok(ground) = Ground::new(alloc, 2, 4) else {
        return None;
    };
    listed::<Brand>(alloc, ground)
}

fn listed<T: Names>(alloc: Global, ground: Ground<u8>) -> Option<Answers>
    requires size { (ground.members ≡ 2) × (ground.room ≡ 4) }
    requires names { AreNamed ground T.book T.counts T.told T.faults }
{
    let Ok((mut journal, mut members, _tally)) = Journal::<T, u8>::start(alloc, ground) else {
        return None;
    };
    let calls = answered(alloc, &mut journal, members.as_mut_slice())?;
    Some(Answers {
        calls,
        entries: journal.into_entries(members),
    })
}

// What the calls on both members answer.
fn answered<T: Names>(
    alloc: Global,
    journal: &mut Journal<T, u8>,
    members: &mut [Member<T, u8>],
) -> Option<Calls>
    requires journal { (journal.old.left ≡ None) × (journal.old.members ≡ 2) × (journal.old.entries ≡ []) × (journal.old.room ≡ 4) }
    requires going { journal.old.stopped ≡ None }
    requires members { (k : ℕ) (m : Side ℕ) → slice_get members.old k ≡ Some m → m ≡ new_side k }
    ensures spent { IfSome result (λ _. journal.new.left ≡ None) }
{
    let [first, second] = members else {
        return None;
    };
    let stamps = two_entries(alloc, journal, first, second)?;
    let receipt = known(journal, second)?;
    journal.stop(StopCause::Store);
    let is_refused = refused(alloc, journal);
    Some(Calls {
        stamps,
        len: journal.len(),
        receipt,
        is_refused,
        heard: journal.tell(first),
        told: (first.told(), second.told()),
    })
}

// An entry names the first member, and the next one both.
fn two_entries<T: Names>(
    alloc: Global,
    journal: &mut Journal<T, u8>,
    first: &mut Member<T, u8>,
    second: &mut Member<T, u8>,
) -> Option<(u32, u32)>
    requires journal { (journal.old.left ≡ None) × (journal.old.members ≡ 2) × (journal.old.entries ≡ []) × (journal.old.room ≡ 4) }
    requires members { (first.old.number ≡ 0) × (second.old.number ≡ 1) }
    ensures spent { IfSome result (λ _. (journal.new.left ≡ None) × (length journal.new.entries ≡ 2)) }
    ensures size { IfSome result (λ _. (journal.new.members ≡ 2) × (journal.new.room ≡ 4) × (journal.new.stopped ≡ journal.old.stopped)) }
{
    let Ok(mut pen) = journal.begin(alloc, 65, 1) else {
        return None;
    };
    journal.enter(&mut pen, first);
    let stamp = journal.finish(pen);
    let Ok(mut pen) = journal.begin(alloc, 66, 3) else {
        return None;
    };
    journal.enter(&mut pen, first);
    journal.enter(&mut pen, second);
    Some((stamp, journal.finish(pen)))
}

// The stamp of the member's last entry.
fn known<T: Names>(journal: &mut Journal<T, u8>, member: &Member<T, u8>) -> Option<u32>
    ensures { journal.new ≡ journal.old }
{
    let receipt = member.receipt()?;
    journal.agree(&receipt);
    Some(receipt.stamp())
}

// Whether a stopped journal hands an entry back.
fn refused<T: Names>(alloc: Global, journal: &mut Journal<T, u8>) -> bool
    requires size { (journal.old.members ≡ 2) × (journal.old.room ≡ 4) }
    requires stopped { (journal.old.stopped ≡ Some Store) × (journal.old.left ≡ None) × (length journal.old.entries ≡ 2) }
    ensures { journal.new ≡ journal.old }
{
    match journal.begin(alloc, 67, 1) {
        Err(BeginFault::Stopped(StopCause::Store, 67)) => true,
        _ => false,
    }
}
