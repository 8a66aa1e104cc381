// An entry that is on its way into the journal.
use crate::names::Names;
use std::marker::{Model, PhantomData};

/// The right and the duty to enter an entry into the members that it names. It is seen as the bits of
/// the members that are still to be entered. It has to be spent by `Journal::finish`.
#[derive(Drop)]
pub struct Pen<T: Names> {
    pub(crate) left: u64,
    pub(crate) of: PhantomData<T>,
}

impl<T: Names> Model for Pen<T> {
    ghost use Rattle.std.specs.Prelude.{ℕ};
    ghost use Rattle.std.specs.Coded.{coded_ℕ};

    ghost Value = { ℕ };

    ghost coded = { coded_ℕ };

    ghost view = { λ p. p.left };
}
