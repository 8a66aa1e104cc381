//! Tables whose rows are counted by class.
#![tactic(auto)]

mod class;
mod counted;
mod counts;

pub use class::Class;
pub use counted::Counted;
