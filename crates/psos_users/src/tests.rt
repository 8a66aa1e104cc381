// Works that count their phases, and add under a lock that they share.
ghost use Rattle.std.specs.Prelude.{◌≡◌};

use crate::{Work, one_phase};
use std::sync::{Mutex, Wait};

// What the works of a phase share.
#[derive(Drop)]
struct Hall<'a, R> {
    rt: &'a R,
    sum: Mutex<u64>,
}

// A work that adds its weight once a phase, and keeps the digits of the phases that it had.
#[derive(Drop)]
struct Counter {
    weight: u64,
    phases: u64,
    digits: u64,
}

impl<'a, R: Wait + Sync> Work<Hall<'a, R>> for Counter {
    ghost next = { λ w. w.phases };

    ghost stands = { λ before after. after.weight ≡ before.weight };

    fn phase(&mut self, scene: &Hall<'a, R>, phase: u32) {
        self.phases += 1;
        self.digits = self.digits.wrapping_mul(10).wrapping_add(u64::from(phase));
        let mut sum = scene.sum.lock(scene.rt);
        *sum = sum.wrapping_add(self.weight);
    }
}

fn of_weight(weight: u64) -> Counter
    ensures { result.phases ≡ 0 }
{
    Counter {
        weight,
        phases: 0,
        digits: 7,
    }
}

#[test]
fn each_phase_once(rt: HostRuntime) {
    let hall = Hall {
        rt: &rt,
        sum: Mutex::new(0),
    };
    let mut works = [
        of_weight(1),
        of_weight(10),
        of_weight(100),
        of_weight(1000),
        of_weight(10_000),
    ];
    one_phase(&rt, &hall, &mut works, 0);
    one_phase(&rt, &hall, &mut works, 1);
    one_phase(&rt, &hall, &mut works, 2);
    let digits = [
        works[0].digits,
        works[1].digits,
        works[2].digits,
        works[3].digits,
        works[4].digits,
    ];
    assert_eq!(&rt; digits, [7012; 5]);
    let mut nobody: [Counter; 0] = [];
    one_phase(&rt, &hall, &mut nobody, 3);
    assert_eq!(&rt; hall.sum.into_inner(), 33_333);
}
