// Why a run stops.
use thiserror::Error;

/// Why a run stops before its end. Nothing is committed after a stop.
#[derive(Clone, Copy, PartialEq, Eq, Debug, Error)]
pub enum StopCause {
    /// The backing store failed, and counted it.
    #[error("the store failed")]
    Store,
    /// Memory ran out.
    #[error("out of memory")]
    Memory,
}
