// How a capability came to its place.
use psos_calls::Right;
use psos_model::Place;

/// How a capability came to its place (docs/promises.md, "Origins").
#[derive(Clone, Copy)]
pub enum Way {
    /// It was there at boot.
    Boot,
    /// Its identifier was new.
    Made,
    /// It was read from a place by a right; by none from a private place or the own mailbox.
    Copied { place: Place, by: Option<Right> },
}
