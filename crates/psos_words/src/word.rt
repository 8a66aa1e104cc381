// A word is tagged: a number in it is no capability.
use psos_caps::Cap;

/// Data or a capability. The tag cannot be altered: no number becomes a capability.
#[derive(Clone, Copy, PartialEq, Eq, Debug)]
pub enum Word {
    /// A number below 2^64.
    Data(u64),
    /// A capability.
    Cap(Cap),
}

impl Default for Word {
    ghost use Rattle.std.specs.Prelude.{◌≡◌};
    ghost use Rattle.psos_words.specs.declared.word.Word.TheVariants.{Data};

    ghost is_default = { λ w. w ≡ Data 0 };

    fn default() -> Word {
        Word::Data(0)
    }
}
