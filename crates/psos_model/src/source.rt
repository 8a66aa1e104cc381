// What a request read.
use crate::Place;
use psos_calls::Right;

/// The place that a request read, and the right by which its user could read it: none for private places and the
/// own mailbox.
#[derive(Clone, Copy)]
pub struct Source {
    pub place: Place,
    pub by: Option<Right>,
}
