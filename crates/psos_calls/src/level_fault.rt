// Why a level's call could not be made.
use std::alloc::AllocError;
use thiserror::Error;

/// Why a level's call could not be made. The level is as it was before.
#[derive(Debug, Drop, Error)]
pub enum LevelFault {
    /// There was no memory for a table's row.
    #[error("out of memory")]
    Memory(AllocError),
    /// The backing store failed, and counted it.
    #[error("the store failed")]
    Store,
}
