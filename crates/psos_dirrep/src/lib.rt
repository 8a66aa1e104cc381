//! Directories in the words of their representations: what is read, what is looked for, and what is written.
//!
//! Plans look page by page (`find_on`, `free_on`, `ends_never`) and write slots (`entry_words`, `gone_words`). `decode`,
//! `Entries127`, `find` and `slot_for` are for readers of whole directories, which no plan is: the program
//! `psos_samples` shows them.
#![tactic(auto)]

mod dir_entry;
mod entries;
mod flat;
mod found;
mod halves;
mod laws;
mod lists;
mod look;
mod names;
mod page;
mod slot_words;

pub use dir_entry::DirEntry;
pub use entries::{Entries127, decode, entry_slot, find, slot_for};
pub use found::Found;
pub use laws::{
    a_front_is_the_whole, an_entry_is_added, an_entry_is_removed, never_used_is_seen,
    pages_are_the_whole,
};
pub use names::name_from;
pub use page::{ends_never, find_on, free_on};
pub use slot_words::{entry_words, gone_words};
