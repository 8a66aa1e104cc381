//! The plans of directories and name spaces: what each does next, after the answers so far.
//!
//! A plan knows no level's state. It reads its user's own part and the answers of the calls that it made
//! (docs/requests.md, "Plans"). What it reads of a directory are the pages in its trace, one after another (`Open`).
#![tactic(auto)]

mod close;
mod collect;
mod directories;
mod listing;
mod open;
mod plan;
mod read;
mod reading;
mod spaces;

pub use open::Open;
pub use plan::next;
pub use read::{open_dir, read_dir, read_rep};
pub use reading::Reading;
