// Numerals of any length.
ghost use Rattle.std.specs.Prelude.{◌≡◌};
ghost use Rattle.std.specs.List.{list_all};
ghost use Rattle.psos_text.specs.Number.{is_digit as digit, is_numeral as numeral};

// One digit or more, and no leading zero but `0` itself.
pub(crate) fn is_numeral(word: &[u8]) -> bool
    ensures { result ≡ numeral word.now }
{
    1 <= word.len() && all_digits(word) && (word.len() <= 1 || word[0] != b'0')
}

fn all_digits(word: &[u8]) -> bool
    ensures { result ≡ list_all digit word.now }
{
    word.iter().all(|d| is_digit(*d))
}

fn is_digit(b: u8) -> bool
    ensures { result ≡ digit b }
{
    b'0' <= b && b <= b'9'
}
