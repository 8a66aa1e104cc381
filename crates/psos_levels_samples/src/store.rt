// Page slots.
ghost use Rattle.std.specs.Prelude.{◌<◌};

use crate::crossing::crosses;
use crate::report::Report;
use psos_store::Slots;

/// Takes all slots, and gives three back.
pub fn show(report: &mut Report) {
    report.library(b"psos_store");
    let mut slots = Slots::new(report.alloc());
    crosses::<Slots>(&slots);
    report.truth(b"slot 0 is taken", slots.is_taken(0));
    report.truth(b"slot 520 is taken", slots.is_taken(520));
    let mut in_order = true;
    'slots: for slot in 0..521u16 {
        in_order = in_order && slots.take() == Some(slot);
    }
    report.truth(b"slots 0 to 520 are taken in order", in_order);
    report.truth(b"one more", slots.take().is_some());
    give(report, &mut slots, 520);
    give(report, &mut slots, 3);
    give(report, &mut slots, 100);
    take(report, &mut slots);
    take(report, &mut slots);
    take(report, &mut slots);
    report.truth(b"one more", slots.take().is_some());
}

// A slot that is taken is freed. Slot 4 stays as it is.
fn give(report: &mut Report, slots: &mut Slots, slot: u16)
    requires { slot < 521 }
{
    report.number(b"given", u64::from(slot));
    report.truth(b"it was taken", slots.is_taken(slot));
    if slots.is_taken(slot) {
        slots.give(slot);
    }
    report.truth(b"it is taken", slots.is_taken(slot));
    report.truth(b"slot 4 is taken", slots.is_taken(4));
}

// The least free slot is taken.
fn take(report: &mut Report, slots: &mut Slots) {
    report.number(b"taken", slots.take().map_or(521, u64::from));
}
