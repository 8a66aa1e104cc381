// Why bytes are not what was wanted.
use thiserror::Error;

/// Why bytes are not what was wanted. Each reader answers one of these alone.
#[derive(Debug, Drop, Error)]
pub enum TextFault {
    /// The bytes are no name.
    #[error("not a name")]
    Name,
    /// The bytes are no number below 2^64.
    #[error("not a number")]
    Number,
    /// The bytes are not four hexadecimal digits.
    #[error("not four hexadecimal digits")]
    Hex,
}
