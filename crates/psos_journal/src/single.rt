// Ledgers of one part.
ghost use Rattle.std.specs.Prelude.{◌≡◌};

use std::sync::ledger::Ledger;

/// A ledger that is not cut: who has its one share knows the whole total.
pub trait Single: Ledger {
    ghost single: { Self.parts ≡ 1 };
}
