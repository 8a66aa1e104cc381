// An answered request, as the history keeps it.
use crate::{Reply, Steps};

/// An answered request: its user, its place n or n/m in that user's run, the calls that it made, and the reply.
/// `m` is 0 outside of bodies. The calls' answers are recomputed by a replay.
#[derive(Drop)]
pub struct Entry {
    pub user: u8,
    pub n: u16,
    pub m: u16,
    pub steps: Steps,
    pub reply: Reply,
}
