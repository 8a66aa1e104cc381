// When and how a capability came to its place.
use crate::Way;

/// The origin of a capability at a place (docs/promises.md, "Origins").
#[derive(Clone, Copy)]
pub struct Origin {
    /// The stamp of the request that put it there; none for boot.
    pub stamp: Option<u32>,
    pub way: Way,
}
