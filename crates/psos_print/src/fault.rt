// Why a text was not written in whole.
use std::alloc::AllocError;
use thiserror::Error;

/// Why a text was not written in whole (docs/program.md, "Statuses"). After either one a front of it was written.
#[derive(Debug, Drop, Error)]
pub enum PrintFault {
    /// Memory ran out.
    #[error("out of memory")]
    Memory(AllocError),
    /// A write of the sink failed, and its count of faults rose.
    #[error("a write failed")]
    Write,
}
