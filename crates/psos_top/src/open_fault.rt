// Why there is no script to run.
use psos_script::ScriptFault;
use thiserror::Error;

/// Why there is no script to run, or no levels to run it on.
#[derive(Clone, Copy, PartialEq, Eq, Debug, Error)]
pub(crate) enum OpenFault {
    /// A read failed.
    #[error("a read failed")]
    Input,
    /// The input is no script.
    #[error("a faulty line")]
    Script(ScriptFault),
    /// Memory ran out.
    #[error("out of memory")]
    Memory,
}
