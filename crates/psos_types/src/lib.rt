//! Level 9: the live types, and the live objects and directories with their representations.
#![tactic(auto)]

mod by_type;
mod types;

pub use types::Types;
