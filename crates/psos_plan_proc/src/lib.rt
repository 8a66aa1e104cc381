//! The plans of processes and procedure records: what each does next, after the answers so far.
//!
//! A plan knows no level's state. It reads its user's own part and the answers of the calls that it made
//! (docs/requests.md, "Plans").
#![tactic(auto)]

mod plan;
mod processes;

pub use plan::next;
