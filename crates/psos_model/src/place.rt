// Where a word can lie.
use psos_caps::Uid;
use psos_text::Name;

/// Where a word can lie (docs/system.md, "Places"). The first three belong to one user, the others to a store.
#[derive(Clone, Copy)]
pub enum Place {
    /// A register of a user.
    Reg { user: u8, i: u8 },
    /// A register of an open body; `depth` bodies are open outside of it.
    FrameReg { user: u8, depth: u8, i: u8 },
    /// A directory of a name space.
    PathAt { user: u8, i: u8 },
    /// A word of a segment.
    SegWord { uid: Uid, i: u16 },
    /// The capability of an entry of a directory.
    DirName { uid: Uid, name: Name },
    /// A message in a mailbox, the first at 0.
    BoxAt { uid: Uid, i: u8 },
    /// The linkage of a procedure record.
    Link { uid: Uid },
    /// The capability on the representation of an object or a directory.
    ImplOf { uid: Uid },
}
