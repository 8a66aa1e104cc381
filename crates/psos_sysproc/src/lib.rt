//! The locks that users hold, what a user may do next, and the draws of turns.
//!
//! Users hold locks in a table of their own (docs/levels.md, "Locks"), and a generator draws whose turn it is
//! (docs/program.md, "Turns"). Nothing here knows a level or a plan.
#![tactic(auto)]

mod place;
mod table;
mod turns;
mod want;

pub use place::rank;
pub use table::Table;
pub use turns::Turns;
pub use want::Want;
