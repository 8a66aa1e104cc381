//! The levels together: boot, plans, and runs of a script on one thread.
#![tactic(auto)]

mod boot;
mod event;
mod events;
mod levels;
mod ongoing;
mod parts;
mod perform;
mod phases;
mod plan;
mod planning;
mod run;
mod serial;
mod serve;
mod step;
mod turns;
mod upcoming;

pub use event::Event;
pub use levels::{Levels, act_issuer};
pub use parts::Parts;
pub use perform::{Closing, stop_cause};
pub use phases::{phase_of, phases_of};
pub use plan::next;
pub use run::Core;
pub use serial::is_open;
