// Texts cut at a byte.
ghost use Rattle.std.specs.Prelude.{◌≡◌, ◌==◌, ◌<◌, ◌≤◌, length, option_map, IfSome};
ghost use Rattle.std.specs.List.{position_or_len};
ghost use Rattle.psos_check.specs.Cuts.{cut_at};

// What stands before the first such byte, and what behind it, if there is one.
pub(crate) fn cut(sep: u8, text: &[u8]) -> Option<(&[u8], &[u8])>
    ensures parts { option_map (λ p. (p.0.now, p.1.now)) result ≡ cut_at sep text.now }
    ensures shorter { IfSome result (λ p. length p.1.now < length text.now) }
{
    let (front, rest) = text.split_at(first_at(sep, text));
    if rest.is_empty() {
        return None;
    }
    let (_, behind) = rest.split_at(1);
    Some((front, behind))
}

// Where the first such byte stands, or the length.
fn first_at(sep: u8, text: &[u8]) -> usize
    ensures at { result ≡ position_or_len (λ b. b == sep) text.now }
    ensures within { result ≤ length text.now }
{
    'bytes: for (i, b) in text.iter().enumerate() {
        if *b == sep {
            return i;
        }
    }
    text.len()
}
