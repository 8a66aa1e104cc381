// Why an entry was not begun.
use crate::stop_cause::StopCause;
use std::alloc::AllocError;

/// Why `Journal::begin` did not take an entry. It hands the entry back.
#[derive(Drop)]
pub enum BeginFault<E> {
    /// The journal was stopped, first for this cause.
    Stopped(StopCause, E),
    /// Memory ran out.
    Memory(AllocError, E),
}
