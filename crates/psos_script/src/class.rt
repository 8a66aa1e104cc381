// The classes of operands.
ghost use Rattle.std.specs.Prelude.{◌≡◌, ◌≤◌, ◌++◌, length, codes};
ghost use Rattle.psos_script.specs.CauseText.{class_text};

/// What an operand is. Names and labels are spelled alike.
#[derive(Clone, Copy, PartialEq, Eq, Debug)]
pub enum Class {
    Register,
    Number,
    Hex,
    Name,
    Label,
    Guard,
}

impl Class {
    // What is printed where an operand of this class is missing.
    pub(crate) fn missing_text(self) -> &'static [u8]
        ensures text { result.now ≡ class_text self ++ codes " missing" }
        ensures short { length result.now ≤ 16 }
    {
        match self {
            Class::Register => b"register missing",
            Class::Number => b"number missing",
            Class::Hex => b"hex missing",
            Class::Name => b"name missing",
            Class::Label => b"label missing",
            Class::Guard => b"guard missing",
        }
    }

    // And where it is malformed.
    pub(crate) fn wrong_text(self) -> &'static [u8]
        ensures text { result.now ≡ class_text self ++ codes " wrong" }
        ensures short { length result.now ≤ 16 }
    {
        match self {
            Class::Register => b"register wrong",
            Class::Number => b"number wrong",
            Class::Hex => b"hex wrong",
            Class::Name => b"name wrong",
            Class::Label => b"label wrong",
            Class::Guard => b"guard wrong",
        }
    }
}
