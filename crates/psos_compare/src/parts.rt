// The scripts of an input, each behind a line `== NAME`.
ghost use Rattle.std.specs.Prelude.{◌≤◌, length};

// The first line without its line feed, and what follows it.
fn first_line(bytes: &[u8]) -> (&[u8], &[u8]) {
    'bytes: for at in 0..bytes.len() {
        if bytes[at] == b'\n' {
            let (line, rest) = bytes.split_at(at);
            let (_, others) = rest.split_at(1);
            return (line, others);
        }
    }
    bytes.split_at(bytes.len())
}

// Where the next line `== NAME` begins, or the end.
fn next_head(bytes: &[u8]) -> usize
    ensures { result ≤ length bytes.now }
{
    let mut begins = true;
    'bytes: for at in 0..bytes.len() {
        if begins && bytes[at] == b'=' {
            return at;
        }
        begins = bytes[at] == b'\n';
    }
    bytes.len()
}

/// The first head, the script behind it, and what follows; none where nothing is left.
pub fn next_part(bytes: &[u8]) -> Option<(&[u8], &[u8], &[u8])> {
    if bytes.is_empty() {
        return None;
    }
    let (name, rest) = first_line(bytes);
    let (text, others) = rest.split_at(next_head(rest));
    Some((name, text, others))
}
