//! The plans of user objects: what each does next, after the answers so far.
//!
//! A plan knows no level's state. It reads its user's own part and the answers of the calls that it made
//! (docs/requests.md, "Plans"). What plans share are parts: each gives the steps behind it, or stops with what comes next.
#![tactic(auto)]

mod delete;
mod enrol;
mod impls;
mod makes;
mod operands;
mod parts;
mod plan;
mod removal;
mod segments;
mod vacancy;

pub use plan::next;
