// The members in groups of six.
use crate::names::Names;
use std::marker::PhantomData;

/// Six members whose numbers follow one another, and what the ledger of each one's count is called.
pub trait Group {
    ghost use Rattle.std.specs.Prelude.{ℕ};

    // The ledger of the count of each member, by its place among the six.
    ghost counts: { ℕ → ℕ };
}

/// The six members from number `N` on.
pub struct SixFrom<T, const N: u8> {
    of: PhantomData<T>,
}

impl<T: Names, const N: u8> Group for SixFrom<T, N> {
    ghost use Rattle.std.specs.Prelude.{◌+◌};

    ghost counts = { λ i. T.counts (N + i) };
}
