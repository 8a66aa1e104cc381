// The page slots.
ghost use Rattle.std.specs.Prelude.{◌≡◌, ◌<◌, ◌≤◌, IsTrue, true, false, length, replicate, slice_index_or, slice_set, IfSome, OnSome, IsNone, ◌↔◌};
ghost use Rattle.psos_limits.specs.declared.TheConstants.{SLOTS};
ghost use Rattle.psos_store.specs.Slots.{least_free};

use psos_limits::SLOTS;
use std::alloc::Global;
use std::marker::Model;

/// The 521 page slots, each free or taken, seen as a list of truth values, true where the slot is taken
/// (docs/levels.md, "Pages and slots").
#[derive(Drop)]
pub struct Slots {
    taken: [bool; SLOTS],
    // All below are taken.
    first: usize,
}

impl Model for Slots {
    ghost use Rattle.std.specs.Prelude.{◌≤◌, Bool, List};
    ghost use Rattle.psos_store.specs.Slots.{least_free};

    ghost Value = { List Bool };

    ghost view = { λ s. s.taken };

    ghost invariant = { λ s. s.first ≤ least_free s.taken };
}

impl Slots {
    /// All slots free. It takes no memory: `_alloc` is for slots that do not lie in the value itself.
    pub fn new(_alloc: Global) -> Slots
        ensures { result ≡ replicate SLOTS false }
    {
        Slots {
            taken: [false; SLOTS],
            first: 0,
        }
    }

    /// Whether a slot is taken. The slot is below 521.
    pub fn is_taken(&self, slot: u16) -> bool
        requires { slot < SLOTS }
        ensures taken { result ≡ slice_index_or self.now slot false }
        ensures all { length self.now ≡ SLOTS }
    {
        self.taken[slot as usize]
    }

    // The least free slot; 521 where there is none.
    fn least(&self) -> usize
        ensures least { result ≡ least_free self.now }
        ensures few { least_free self.now ≤ SLOTS }
    {
        let mut slot = self.first;
        'taken: while slot < SLOTS && self.taken[slot] {
            slot += 1;
        }
        slot
    }

    /// Takes the least free slot. None exactly where no slot is free, and then nothing is changed. It takes no memory.
    pub fn take(&mut self) -> Option<u16>
        ensures least { IfSome result (λ slot. slot ≡ least_free self.old) }
        ensures none { IsNone result ↔ (least_free self.old ≡ SLOTS) }
        ensures taken { OnSome result (self.new ≡ slice_set self.old (least_free self.old) true) }
        ensures unchanged { IsNone result → self.new ≡ self.old }
        ensures all { length self.old ≡ SLOTS }
    {
        let slot = self.least();
        self.first = slot;
        if slot == SLOTS {
            return None;
        }
        self.taken[slot] = true;
        Some(slot as u16)
    }

    /// Frees a slot, and no other. The slot is taken. It takes no memory.
    pub fn give(&mut self, slot: u16)
        requires { IsTrue (slice_index_or self.old slot false) }
        ensures { self.new ≡ slice_set self.old slot false }
    {
        let slot = slot as usize;
        self.taken[slot] = false;
        self.first = self.first.min(slot);
    }
}
