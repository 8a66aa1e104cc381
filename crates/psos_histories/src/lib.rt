//! Laws of the histories of locks: what a journal of several threads records, and what a request at work under its
//! locks may do while others close.
#![tactic(auto)]

mod laws;

pub use laws::{
    bits_are_names, calls_are_made, calls_are_of_pieces, histories_are_replay, histories_begin,
    histories_by_lock, left_in_phase, lists_are_users, locks_are_members, locks_are_taken,
    nobody_has_left, past_stays, pieces_are_all, plans_fall, records_are_faithful, records_are_few,
    records_have_lists, records_have_users, requests_are_able, requests_begin, requests_close,
    requests_go_on, users_stay,
};
