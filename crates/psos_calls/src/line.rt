// An answered request, as it is printed.
use crate::Reply;

/// A line of a transcript: a user, a place n or n/m, the position in the order of the run, and the reply.
/// `m` is 0 outside of bodies.
#[derive(Drop)]
pub struct Line {
    pub user: u8,
    pub n: u16,
    pub m: u16,
    pub stamp: u32,
    pub reply: Reply,
}
