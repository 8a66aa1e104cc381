// No page at all.

/// Stands where a page would be told, in an answer that tells none: it has no value.
#[derive(Clone, Copy)]
pub enum NoPage {}
