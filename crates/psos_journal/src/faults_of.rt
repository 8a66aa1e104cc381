// The ledger of store faults.
use crate::names::Names;
use crate::single::Single;
use std::marker::PhantomData;
use std::sync::ledger::Ledger;

/// The ledger of a run's store faults. The journal does not use it.
pub struct FaultsOf<T> {
    of: PhantomData<T>,
}

impl<T: Names> Ledger for FaultsOf<T> {
    ghost name = { T.faults };

    ghost parts = { 1 };
}

impl<T: Names> Single for FaultsOf<T> {
    ghost use Rattle.std.specs.Prelude.{refl};

    ghost single = { refl };
}
