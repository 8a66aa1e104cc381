//! Plans agree with answers: what a plan leaves, replies and effects is what the flat answer says.
#![tactic(auto)]

mod laws;
mod stands;

pub use laws::{boot_stands, directories_are_lists, plans_are_short, plans_run, requests_agree};
pub use stands::{directories_stand, entries_stand, objects_stand, segments_stand, slots_are_left};
