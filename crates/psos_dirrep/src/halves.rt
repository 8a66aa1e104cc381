// A name as two numbers.
ghost use Rattle.std.specs.Prelude.{◌≡◌, length};
ghost use Rattle.std.specs.Int.{w64, from_be_bytes};
ghost use Rattle.psos_words.specs.Directory.{name_high, name_low};

use psos_text::Name;

// The 16 bytes of a name as two numbers, the first byte the highest.
pub(crate) fn halves(name: &Name) -> (u64, u64)
    ensures high { result.0 ≡ name_high name.now }
    ensures low { result.1 ≡ name_low name.now }
{
    let bytes = name.to_bytes();
    let (first, second) = bytes.split_at(8);
    (eight(first), eight(second))
}

// Eight bytes as a number.
fn eight(bytes: &[u8]) -> u64
    requires { length bytes.now ≡ 8 }
    ensures { result ≡ from_be_bytes w64 bytes.now }
{
    let mut all = [0u8; 8];
    all.copy_from_slice(bytes);
    u64::from_be_bytes(all)
}
