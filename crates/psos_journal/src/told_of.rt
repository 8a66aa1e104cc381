// The ledger of told members.
use crate::names::Names;
use std::marker::PhantomData;
use std::sync::ledger::Ledger;

/// The ledger of the members that were told of a store fault. Each has one of its 24 parts.
pub struct ToldOf<T> {
    of: PhantomData<T>,
}

impl<T: Names> Ledger for ToldOf<T> {
    ghost name = { T.told };

    ghost parts = { 24 };
}
