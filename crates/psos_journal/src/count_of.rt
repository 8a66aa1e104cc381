// The ledgers of members' counts.
use crate::group::Group;
use crate::single::Single;
use std::marker::PhantomData;
use std::sync::ledger::Ledger;

/// The ledger of the count of the member at place `I` of a group.
pub struct CountOf<G, const I: u8> {
    of: PhantomData<G>,
}

impl<G: Group, const I: u8> Ledger for CountOf<G, I> {
    ghost name = { G.counts I };

    ghost parts = { 1 };
}

impl<G: Group, const I: u8> Single for CountOf<G, I> {
    ghost use Rattle.std.specs.Prelude.{refl};

    ghost single = { refl };
}
