//! The outside, as the rest of the system sees it: sources, sinks, stores and gates, with their counts of faults.
#![tactic(auto)]

mod failed;
mod gate;
mod mem_sink;
mod mem_source;
mod no_store;
mod sink;
mod source;
mod std_sink;
mod std_source;
mod store;
mod transfer;

pub use failed::Failed;
pub use gate::{Gate, NoGate};
pub use mem_sink::MemSink;
pub use mem_source::MemSource;
pub use no_store::NoStore;
pub use sink::Sink;
pub use source::Source;
pub use std_sink::StdSink;
pub use std_source::StdSource;
pub use store::Store;
pub use transfer::{InputFault, MOST, put_all, read_all};
