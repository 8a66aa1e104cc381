//! A script that is made from a number (docs/program.md, "Load").
#![tactic(auto)]

mod line;
mod script;

pub use script::script_text;
