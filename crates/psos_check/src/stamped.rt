// What a line of a transcript says of the order.

/// A line of a transcript: its user, by number in the script, and its stamp, the place in the order.
#[derive(Clone, Copy, PartialEq, Eq, Debug)]
pub struct Stamped {
    pub user: u8,
    pub stamp: u32,
}
