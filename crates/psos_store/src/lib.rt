//! What lies beneath level 7: which page slots are taken, and a backing store in memory.
#![tactic(auto)]

mod mem_store;
mod slots;

pub use mem_store::MemStore;
pub use slots::Slots;
