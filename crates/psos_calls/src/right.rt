// Rights by their names.
ghost use Rattle.std.specs.Prelude.{◌≡◌, ◌<◌};
ghost use Rattle.psos_calls.specs.Language.Rights.{bit_of, has};

use psos_caps::Cap;

/// The rights that requests need. Which bit stands for one goes by the kind of the object, so some share a bit.
#[derive(Clone, Copy)]
pub enum Right {
    /// On a segment or window: to read its words and its length.
    Read,
    /// On a segment or window: to change its words.
    Write,
    /// On a segment or window: to make a window over it.
    Window,
    /// On a directory: to find an entry, and to take the directory into a name space.
    Lookup,
    /// On a directory: to make a plain entry.
    Bind,
    /// On a directory: to take a plain entry out.
    Unbind,
    /// On a directory: to be told its names.
    List,
    /// On a directory: to make a user object there.
    Create,
    /// On a directory: to delete a user object that was made there.
    Delete,
    /// On a type: to make objects of it.
    Make,
    /// On a type: to open objects of it.
    Impl,
    /// On a procedure record: to call it.
    Enter,
    /// On a process: to send to it.
    Send,
}

impl Right {
    /// The number of its bit, from 3 to 8 (docs/system.md, "Rights").
    pub fn bit(self) -> u8
        ensures bit { result ≡ bit_of self }
        ensures small { result < 16 }
    {
        match self {
            Right::Read | Right::Lookup | Right::Make | Right::Enter | Right::Send => 3,
            Right::Write | Right::Bind | Right::Impl => 4,
            Right::Window | Right::Unbind => 5,
            Right::List => 6,
            Right::Create => 7,
            Right::Delete => 8,
        }
    }
}

/// Whether a capability has a right (docs/system.md, "Rights").
pub fn has(cap: Cap, right: Right) -> bool
    ensures { result ≡ has cap right }
{
    cap.has(right.bit())
}
