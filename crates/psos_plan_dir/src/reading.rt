// A directory that a plan reads.
use crate::Open;
use psos_calls::{Next, StepSlice};

/// How far a plan is that reads a directory (docs/requests.md, "Plans": `open` and `PageGets`).
#[derive(Drop)]
pub enum Reading<'a> {
    /// It is not read: this is next, the call that is missing, or the close with the refusal of one that was made.
    Next(Next),
    /// It is read, and these calls were made since.
    Done(Open<'a>, StepSlice<'a>),
}
