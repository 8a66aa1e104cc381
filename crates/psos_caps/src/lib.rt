//! Capabilities: a unique identifier with a set of access rights, which nobody can forge or widen.
#![tactic(auto)]

mod cap;
mod issuer;
mod rights;

pub use cap::{Cap, Uid, from_payload, to_payload};
pub use issuer::Issuer;
pub use rights::Rights;
