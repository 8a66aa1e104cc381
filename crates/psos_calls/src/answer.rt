// What the flat state answers.
use crate::Reply;

/// The answer to a user's next request: its place n or n/m, and the reply. `m` is 0 outside of bodies.
#[derive(Drop)]
pub struct Answer {
    pub n: u16,
    pub m: u16,
    pub reply: Reply,
}
