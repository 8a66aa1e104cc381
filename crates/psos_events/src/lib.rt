//! Laws of the core: events of users, each of which takes a lock, makes a call or closes a request.
#![tactic(auto)]

mod laws;

pub use laws::{
    boot_is_core_start, closes_commit, committed_was_free, events_are_serial, events_can_happen,
    events_commit, events_end, events_go_on, never_stuck, one_turns_order, others_commit_elsewhere,
    phases_follow, runs_stand,
};
