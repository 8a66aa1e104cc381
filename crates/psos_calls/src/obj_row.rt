// An object or a directory, as level 9 keeps it.
use psos_caps::{Cap, Uid};

/// A live object with its type, or a live directory with none; and the capability on its representation.
#[derive(Clone, Copy)]
pub struct ObjRow {
    pub of: Option<Uid>,
    pub rep: Cap,
}
