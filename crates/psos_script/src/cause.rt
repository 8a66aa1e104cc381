// Why a line is faulty.
ghost use Rattle.std.specs.Prelude.{◌≡◌, ◌≤◌, length};
ghost use Rattle.psos_script.specs.CauseText.{cause_text};

use crate::class::Class;

/// Why a line of a script is faulty, in the order in which a line is tried.
#[derive(Clone, Copy, PartialEq, Eq, Debug)]
pub enum Cause {
    /// The input has more than 1,048,576 bytes. The line is 0.
    InputTooLong,
    /// The line has more than 200 bytes.
    LineTooLong,
    /// The line has a byte below 32 or above 126.
    BadByte,
    /// The first word begins no line.
    UnknownWord,
    /// A request or `end` stands outside of any block and user, `end` in a user, or `phase` not in a user.
    Outside,
    /// `user` or `code` stands in a code block, or the last line is in one.
    NoEnd,
    /// `code` stands behind a `user` line.
    CodeAfterUser,
    /// An operand of this class is missing.
    Missing(Class),
    /// An operand of this class is malformed.
    Wrong(Class),
    /// Words stand behind the last operand.
    TooManyWords,
    /// An earlier user has the name.
    UserTwice,
    /// An earlier code block has the label.
    LabelTwice,
    /// No code block so far has the label.
    UnknownLabel,
    /// The code block has no request.
    EmptyCode,
    /// The ninth user.
    TooManyUsers,
    /// The 65th code block.
    TooManyCodes,
    /// The 241st line of a user, or the 17th request of a code block.
    TooManyLines,
    /// There is no user. The line is the one behind the last.
    NoUser,
}

impl Cause {
    /// The text of the cause, as in `line 2: register missing` behind the colon and the space. It takes no memory.
    pub fn text(self) -> &'static [u8]
        ensures text { result.now ≡ cause_text self }
        ensures short { length result.now ≤ 16 }
    {
        match self {
            Cause::Missing(class) => class.missing_text(),
            Cause::Wrong(class) => class.wrong_text(),
            Cause::InputTooLong => b"input too long",
            Cause::LineTooLong => b"line too long",
            Cause::BadByte => b"bad byte",
            Cause::UnknownWord => b"unknown word",
            Cause::Outside => b"outside",
            Cause::NoEnd => b"no end",
            Cause::CodeAfterUser => b"code after user",
            Cause::TooManyWords => b"too many words",
            Cause::UserTwice => b"user twice",
            Cause::LabelTwice => b"label twice",
            Cause::UnknownLabel => b"unknown label",
            Cause::EmptyCode => b"empty code",
            Cause::TooManyUsers => b"too many users",
            Cause::TooManyCodes => b"too many codes",
            Cause::TooManyLines => b"too many lines",
            Cause::NoUser => b"no user",
        }
    }
}
