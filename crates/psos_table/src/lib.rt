//! Tables: rows under numbers.
#![tactic(auto)]

mod change;
mod table;
mod test;

pub use change::Change;
pub use table::Table;
pub use test::Test;
