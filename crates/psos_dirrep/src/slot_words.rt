// What is written into a slot.
ghost use Rattle.std.specs.Prelude.{◌≡◌};
ghost use Rattle.psos_text.specs.Name.{IsName};
ghost use Rattle.psos_words.specs.Directory.{entry_words, gone_words};

use crate::halves::halves;
use psos_caps::Cap;
use psos_text::Name;
use psos_words::Word;

/// The four words of an entry, `kept` where it is a distinguished one (docs/system.md, "Words in blocks and
/// directories").
pub fn entry_words(name: &Name, cap: Cap, kept: bool) -> [Word; 4]
    requires { IsName name.now }
    ensures { result ≡ entry_words name.now cap kept }
{
    let (high, low) = halves(name);
    let mark = if kept { 2 } else { 1 };
    [
        Word::Data(mark),
        Word::Data(high),
        Word::Data(low),
        Word::Cap(cap),
    ]
}

/// The four words of a slot that was used and is free.
pub fn gone_words() -> [Word; 4]
    ensures { result ≡ gone_words }
{
    [Word::Data(3), Word::Data(0), Word::Data(0), Word::Data(0)]
}
