// An object of a user's type.

/// An object: the identifiers of its type and of its representation, which is a segment.
#[derive(Clone, Copy)]
pub struct Object {
    pub of: u64,
    pub rep: u64,
}
