// Why a line is not taken.
ghost use Rattle.std.specs.Prelude.{◌≡◌};
ghost use Rattle.psos_script.specs.declared.line_fault.LineFault.TheVariants.{Memory};

use crate::cause::Cause;
use std::alloc::AllocError;

/// Why a line is not taken.
#[derive(Clone, Copy, PartialEq, Eq, Debug)]
pub(crate) enum LineFault {
    Memory,
    Cause(Cause),
}

impl From<AllocError> for LineFault {
    ghost from_gives = { λ _ e. e ≡ Memory };

    fn from(_e: AllocError) -> LineFault {
        LineFault::Memory
    }
}
