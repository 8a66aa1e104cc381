//! One thread per user: the works of all users, phase by phase.
//!
//! What a work does in a phase is its own affair (docs/levels.md, "Phases"). Nothing here knows a level, a plan or a
//! lock.
#![tactic(auto)]

mod beside;
#[cfg(test)]
mod tests;
mod work;

pub use beside::one_phase;
pub use work::Work;
