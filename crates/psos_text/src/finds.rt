// Where a byte stands, and where a word.
ghost use Rattle.std.specs.Prelude.{◌≡◌, ◌≤◌, ◌==◌, [], not, length, IfNone, IfSome};
ghost use Rattle.std.specs.List.{position_or_len};
ghost use Rattle.psos_text.specs.Lines.{words_of, IsFirstWord};

// Where the first such byte stands, or the length.
pub(crate) fn first_at(sep: u8, text: &[u8]) -> usize
    ensures at { result ≡ position_or_len (λ b. b == sep) text.now }
    ensures within { result ≤ length text.now }
{
    'bytes: for (i, b) in text.iter().enumerate() {
        if *b == sep {
            return i;
        }
    }
    text.len()
}

// Where the first other byte stands, or the length.
fn first_other(sep: u8, text: &[u8]) -> usize
    ensures at { result ≡ position_or_len (λ b. not (b == sep)) text.now }
    ensures within { result ≤ length text.now }
{
    'bytes: for (i, b) in text.iter().enumerate() {
        if *b != sep {
            return i;
        }
    }
    text.len()
}

// Where the first word stands, and its length.
pub(crate) fn first_word(text: &[u8]) -> Option<(usize, usize)>
    ensures none { IfNone result (words_of text.now ≡ []) }
    ensures some { IfSome result (λ p. IsFirstWord text.now p.0 p.1) }
{
    let place = first_other(b' ', text);
    let (_, rest) = text.split_at(place);
    if rest.is_empty() {
        return None;
    }
    Some((place, first_at(b' ', rest)))
}
