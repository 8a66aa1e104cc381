//! Scripts from their bytes: the users and their requests, or the first faulty line and its cause.
#![tactic(auto)]

mod cause;
mod class;
mod draft;
mod fault;
mod head;
mod laws;
mod line_fault;
mod lines;
mod name_list;
mod operands;
mod rows;
mod script;
mod section;
mod unfinished;
mod verb;

pub use cause::Cause;
pub use class::Class;
pub use fault::{ReadFault, ScriptFault};
pub use laws::{no_fault_is_a_script, one_script_only, the_least_fault_is_reported};
pub use script::read_script;
