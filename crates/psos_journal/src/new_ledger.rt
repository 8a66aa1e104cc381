// A ledger that has no name in a type yet.
ghost use Rattle.std.specs.Prelude.{◌≡◌};

use std::sync::ledger::Blank;

/// A new ledger of one part.
#[derive(Drop)]
pub(crate) struct NewLedger {
    pub(crate) blank: Blank,
    pub(crate) ghost one: { blank.parts ≡ 1 },
}

impl NewLedger {
    pub(crate) fn new() -> NewLedger {
        NewLedger {
            blank: Blank::new(1),
        }
    }
}
