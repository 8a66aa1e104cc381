// Why the samples stop.
use psos_calls::LevelFault;
use std::alloc::AllocError;

/// The samples stop before their end: memory ran out, or an answer was not the one that the next call needs.
#[derive(Drop)]
pub struct Stop;

impl From<AllocError> for Stop {
    fn from(_error: AllocError) -> Stop {
        Stop
    }
}

impl From<LevelFault> for Stop {
    fn from(_fault: LevelFault) -> Stop {
        Stop
    }
}
