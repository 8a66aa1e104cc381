// The one error of the outside.

/// A call of a source, a sink or a store failed, and the count of faults of that object has risen.
///
/// What the call leaves stands at the call: a source still holds its bytes, a sink took none, a store keeps
/// every block but one that it was told to write.
#[derive(Clone, Copy, PartialEq, Eq, Debug)]
pub struct Failed;
