// What is answered to a request.
use crate::{Names, Refusal};
use psos_caps::Cap;

/// The answer to a request (docs/system.md, "Replies and refusals").
#[derive(Drop)]
pub enum Reply {
    /// `ok`
    Fine,
    Data(u64),
    Cap(Cap),
    /// In ascending order of their bytes.
    Names(Names),
    No(Refusal),
}
