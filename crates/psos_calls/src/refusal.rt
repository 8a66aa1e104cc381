// Why a request is refused.
use crate::{Kind, Right, Tab};

/// Why a request, or a level's call, was refused. A refusal changes nothing but that the request is counted
/// (docs/system.md, "Replies and refusals").
#[derive(Clone, Copy)]
pub enum Refusal {
    /// The operand holds data.
    NotCap,
    /// The operand holds a capability.
    NotData,
    /// The identifier names no live thing of this kind.
    Absent(Kind),
    /// The capability lacks this right.
    Lacks(Right),
    /// The least bit of the guard that the capability lacks.
    Guarded(u8),
    /// An offset, a length or a window is out of range.
    Range,
    /// The directory has the name.
    NameTaken,
    /// The directory, or each directory of the name space, has no such name.
    UnknownName,
    /// `unbind` of a distinguished entry.
    Distinguished,
    /// `delete` of a plain entry.
    NotDistinguished,
    /// The directory has entries, or the type has live objects.
    NotEmpty,
    /// The table holds its limit.
    Exhausted(Tab),
    /// The caller's mailbox holds nothing.
    Empty,
    /// The object is of another type.
    WrongType,
    /// The sum is 2^64 or more.
    Overflow,
}
