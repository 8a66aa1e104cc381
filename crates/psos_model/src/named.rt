// What a name stands for.
use psos_caps::Cap;

/// What a name stands for in a directory, and whether it is the distinguished entry of that.
#[derive(Clone, Copy)]
pub struct Named {
    pub cap: Cap,
    pub kept: bool,
}
