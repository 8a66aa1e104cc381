//! The text of a run: each user's lines in the order of the script, and how many requests and level calls there were.
#![tactic(auto)]

mod done;
mod fault;
mod forms;
mod head;
mod lengths;
mod line;
mod name;
mod positions;
mod refusal;
mod reply;
mod tail;
mod transcript;

pub use done::done_line;
pub use fault::PrintFault;
pub use forms::forms_line;
pub use head::load_head;
pub use lengths::line_len;
pub use line::put_line;
pub use transcript::put_transcript;
