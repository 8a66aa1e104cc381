// The names of a run's ghost values.
use std::marker::Brand;

/// What a run calls the values that a journal and its members agree on, behind different locks. Each
/// type that has to agree carries it in its type. A run picks it once, where it hands `Brand` to the
/// function that is generic over it (docs/levels.md, "Journal").
pub trait Names {
    ghost use Rattle.std.specs.Prelude.{ℕ};
    ghost use Rattle.logbook.specs.Pages.{Book};

    // The cells of the entries.
    ghost book: { Book };

    // The ledger of the count of each member, by its number.
    ghost counts: { ℕ → ℕ };

    // The ledger of told members.
    ghost told: { ℕ };

    // The ledger of store faults.
    ghost faults: { ℕ };
}

impl Names for Brand {
    ghost book = { record { number = 0; log_name = 0; cells_name = 0 } };

    ghost counts = { λ i. 0 };

    ghost told = { 0 };

    ghost faults = { 0 };
}
