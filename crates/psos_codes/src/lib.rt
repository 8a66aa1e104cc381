//! Level 13: the live procedure records.
#![tactic(auto)]

mod codes;

pub use codes::Codes;
