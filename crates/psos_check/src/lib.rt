//! Texts that may be transcripts of a script: what their lines say, and the order of their stamps.
#![tactic(auto)]

mod cuts;
mod done_line;
mod laws;
mod lines;
mod numeral;
mod order;
mod stamped;
mod text;
mod user_line;

pub use laws::{one_text_only, stamps_are_below};
pub use lines::read_text;
pub use order::order_of_stamps;
pub use stamped::Stamped;
pub use text::{MOST_TEXT, Text};
