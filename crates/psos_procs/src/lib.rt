//! Level 12: the processes' mailboxes, each as a machine of its own, and name spaces.
#![tactic(auto)]

mod laws;
mod mailbox;
mod name_space;
mod procs;

pub use laws::mailboxes_are_parts;
pub use mailbox::Mailbox;
pub use name_space::path_push;
pub use procs::Procs;
