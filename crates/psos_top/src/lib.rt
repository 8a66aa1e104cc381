//! The commands of the simulated system, from the words of the command line to the bytes written.
#![tactic(auto)]

mod arguments;
mod command;
mod ending;
mod fault_line;
mod load;
mod loading;
mod open_fault;
mod opening;
mod outcome;
mod program;
mod run;
mod serial;
mod turns;
mod words;

pub use command::Command;
pub use load::load_call;
pub use outcome::Outcome;
pub use program::{psos_main, psos_program};
pub use run::run_call;
pub use serial::serial_call;
pub use turns::turns_call;
