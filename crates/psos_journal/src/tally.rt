// Both sides of the count of store faults.
use crate::faults_of::FaultsOf;
use crate::names::Names;
use std::sync::ledger::{Book, Share};

/// The two sides of the ledger of store faults, which whoever ties a store to the journal takes apart:
/// the book goes beside the store, and the share beside the journal. Neither takes bytes.
#[derive(Drop)]
pub struct Tally<T: Names> {
    /// The number of faults, beside the store.
    pub book: Book<FaultsOf<T>>,
    /// The same number, beside the journal. It has the ledger's one part.
    pub share: Share<FaultsOf<T>>,
}
