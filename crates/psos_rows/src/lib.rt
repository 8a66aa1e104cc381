//! Runs of the plain program alone: one request after another, each request whole, in the serial order or in one that is
//! given.
//!
//! psos_compare runs it on worked scripts, beside the core.
#![tactic(auto)]

mod line;
mod order;
mod serial;

pub use order::order_lines;
pub use serial::serial_lines;
