// Why there is no script.
use crate::cause::Cause;
use std::alloc::AllocError;
use thiserror::Error;

/// The least faulty line, counted from 1, and the first cause on it.
#[derive(Clone, Copy, PartialEq, Eq, Debug)]
pub struct ScriptFault {
    pub line: u32,
    pub cause: Cause,
}

/// Why there is no script. Nothing is kept after either one.
#[derive(Debug, Drop, Error)]
pub enum ReadFault {
    /// Memory ran out. The bytes may spell a script.
    #[error("out of memory")]
    Memory(AllocError),
    /// The bytes spell no script.
    #[error("a faulty line")]
    Script(ScriptFault),
}
