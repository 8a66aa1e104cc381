// The line that ends a transcript.
ghost use Rattle.std.specs.Prelude.{◌≡◌};
ghost use Rattle.psos_check.specs.Reading.{calls_in, counts_in, done_in};

use crate::cuts::cut;
use psos_text::read_number;

// The numbers of requests and of calls, if it is the done line. The line feed that ends it is cut off.
#[tactic(auto, unfolding(crate::specs::Reading::done_in))]
pub(crate) fn done_line(line: &[u8]) -> Option<(u64, u64)>
    ensures { result ≡ done_in line.now }
{
    let (word, rest) = cut(b' ', line)?;
    if word != b"done".as_slice() {
        return None;
    }
    counts(rest)
}

// What stands behind `done`.
#[tactic(auto, unfolding(crate::specs::Reading::counts_in))]
fn counts(text: &[u8]) -> Option<(u64, u64)>
    ensures { result ≡ counts_in text.now }
{
    let (word, rest) = cut(b' ', text)?;
    let requests = read_number(word).ok()?;
    let calls = calls(rest)?;
    Some((requests, calls))
}

// What stands behind the number of requests.
#[tactic(auto, unfolding(crate::specs::Reading::calls_in))]
fn calls(text: &[u8]) -> Option<u64>
    ensures { result ≡ calls_in text.now }
{
    let (word, rest) = cut(b' ', text)?;
    if word != b"calls".as_slice() {
        return None;
    }
    read_number(rest).ok()
}
