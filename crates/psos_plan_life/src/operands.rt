// The length and the guard that a request asks for.
ghost use Rattle.std.specs.Prelude.{◌≡◌, false, true, MatchOption};
ghost use Rattle.psos_calls.specs.Language.Stores.{is_length};
ghost use Rattle.psos_calls.specs.Language.Stores.{guard_of as guard_for};

use psos_caps::Rights;
use psos_limits::MOST_WORDS;

// A length of a segment. None exactly where it is not 1 to 512.
pub(crate) fn segment_len(len: u64) -> Option<u16>
    ensures { MatchOption result (is_length len ≡ false) (λ n. (n ≡ len) × (is_length len ≡ true)) }
{
    if 0 < len && len <= MOST_WORDS as u64 {
        Some(len as u16)
    } else {
        None
    }
}

// The guard of a store that is asked for: bit 0 is always in it.
pub(crate) fn guard_of(guard: u8) -> Rights
    ensures { result ≡ guard_for guard }
{
    Rights::of(u16::from(guard | 1))
}
