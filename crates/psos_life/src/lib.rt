//! Level 11: the live user objects, each with its kind.
#![tactic(auto)]

mod life;

pub use life::Life;
