// The change of a user's own part.
use psos_caps::Cap;
use psos_words::Word;

/// The change that a request makes to its user's own part.
#[derive(Clone, Copy)]
pub enum Effect {
    Nothing,
    /// A word goes into a register of the innermost open body, or of the user.
    Put(u8, Word),
    /// A directory goes last in the name space.
    Push(Cap),
    /// A body is entered: its code block, and the linkage.
    Enter { label: u8, link: Word },
}
