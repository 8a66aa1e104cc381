// A call that is kept.
use crate::LevelCall;

/// A call whose words lie among others, and which tells from where on: the four of `FourPut` and the one of `Locate`.
/// So the many calls that have no such word take no room for one.
pub(crate) type KeptCall = LevelCall<u8, Option<u8>>;
