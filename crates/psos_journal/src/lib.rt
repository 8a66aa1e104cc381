//! The history of a run: its entries in order, and why a run stops.
#![tactic(auto)]

mod append;
mod begin_fault;
mod blanks;
mod books;
mod cells;
mod count_of;
mod entries;
mod faults_of;
mod ground;
mod group;
mod journal;
mod journal_count;
mod law;
mod mark;
mod member;
mod member_count;
mod names;
mod new_ledger;
mod new_members;
mod one_of_six;
mod opening;
mod past;
mod pen;
mod receipt;
mod single;
mod six_blanks;
mod six_counts;
mod six_marks;
mod six_shares;
mod steps;
mod stop_cause;
mod tally;
mod told_of;

pub use begin_fault::BeginFault;
pub use entries::Entries;
pub use faults_of::FaultsOf;
pub use ground::Ground;
pub use journal::Journal;
pub use member::Member;
pub use names::Names;
pub use pen::Pen;
pub use receipt::Receipt;
pub use single::Single;
pub use stop_cause::StopCause;
pub use tally::Tally;
