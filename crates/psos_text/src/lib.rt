//! Names, numbers and words of a text: what is read from bytes, and what is printed into them.
#![tactic(auto)]

mod fault;
mod finds;
mod hex;
mod laws;
mod name;
mod number;
mod tokens;

pub use fault::TextFault;
pub use hex::{put_hex4, read_hex4};
pub use laws::{hex_is_read_back, lines_are_cut, names_are_read_back, numbers_are_read_back};
pub use name::Name;
pub use number::{put_number, read_number};
pub use tokens::Tokens;
