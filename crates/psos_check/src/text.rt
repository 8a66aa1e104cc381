// What a text is.
use crate::stamped::Stamped;

/// Bytes of a text that is read as a transcript.
pub const MOST_TEXT: usize = 16_777_216;

/// What a text is, read as a transcript.
#[derive(Drop)]
pub enum Text {
    /// It has more than 16,777,216 bytes.
    TooLong,
    /// The first line, counted from 1, that is neither a user line nor the done line that ends the text. It is the
    /// number of lines and 1 where all are user lines.
    Line(u32),
    /// User lines and a done line: what the user lines say, in their order.
    Read(Vec<Stamped>),
}
