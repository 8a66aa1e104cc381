//! What the system is to its users: flat objects, the answer to each request, and the runs of a script.
//!
//! The definitions are in specs/. The program here does what they say, slowly and plainly.
#![tactic(auto)]

mod access;
mod answer_dir;
mod answer_life;
mod answer_proc;
mod answer_seg;
mod apply;
mod boot;
mod boot_uids;
mod change;
mod change_list;
mod directory;
mod edits;
mod flat;
mod guards;
mod issue;
mod laws;
mod left;
mod mailbox;
mod named;
mod names_table;
mod next_outcome;
mod object;
mod objects;
mod outcome;
mod place;
mod requests;
mod rows;
mod segment;
mod source;
mod step;
mod users;
mod view;

pub use boot::boot_user;
pub use boot_uids::{home_of, home_rep_of, process_of, scratch_of};
pub use change::Change;
pub use change_list::ChangeList;
pub use directory::Directory;
pub use flat::Flat;
pub use laws::{next_rises_by_two, others_stay, refusals_do_nothing};
pub use left::{current_phase, is_left, none_left};
pub use mailbox::Mailbox;
pub use named::Named;
pub use names_table::NamesTable;
pub use object::Object;
pub use objects::Objects;
pub use outcome::{Outcome, reg_place};
pub use place::Place;
pub use segment::Segment;
pub use source::Source;
pub use users::Users;
pub use view::FlatView;
