//! Level 10: the live directories, each with its guard.
#![tactic(auto)]

mod dirs;

pub use dirs::Dirs;
