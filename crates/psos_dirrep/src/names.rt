// Names by their two numbers.
ghost use Rattle.std.specs.Prelude.{◌≡◌, ◌==◌, ◌++◌, ◌≤◌, if◌then◌else◌, length, Ok, Err, Some, None, IfOk, IsTrue};
ghost use Rattle.std.specs.Int.{w64, to_be_bytes};
ghost use Rattle.std.specs.List.{position_or_len, before_first};
ghost use Rattle.psos_text.specs.Name.{is_name, name_of, name_text, IsName};
ghost use Rattle.psos_words.specs.Directory.{is_filled_name, name_from};

use crate::halves::halves;
use psos_text::{Name, TextFault};

/// The name whose bytes are two numbers, the highest byte first (docs/system.md, "Words in blocks and directories").
/// There is such a name, filled up with zeros.
pub fn name_from(high: u64, low: u64) -> Name
    requires { IsTrue (is_filled_name (name_from high low)) }
    ensures { result ≡ name_from high low }
{
    Name::from_bytes(sixteen(high, low))
}

// The name with these two numbers, if it is one that is filled up with zeros.
pub(crate) fn filled(high: u64, low: u64) -> Option<Name>
    ensures { result ≡ (if is_filled_name (name_from high low) then Some (name_from high low) else None) }
{
    let Ok(name) = read(high, low) else {
        return None;
    };
    let (first, second) = halves(&name);
    if first != high {
        return None;
    }
    if second != low {
        return None;
    }
    Some(name)
}

// Whether there is such a name.
pub(crate) fn is_filled(high: u64, low: u64) -> bool
    ensures { result ≡ is_filled_name (name_from high low) }
{
    filled(high, low).is_some()
}

// The name whose text stands before the first zero in the bytes of two numbers.
fn read(high: u64, low: u64) -> Result<Name, TextFault>
    ensures value { result ≡ (if is_name (name_text (name_from high low)) then Ok (name_of (name_text (name_from high low))) else Err TextFault.Name) }
    ensures name { IfOk result IsName }
{
    let bytes = sixteen(high, low);
    Name::read(text_of(&bytes))
}

// The bytes of two numbers, the highest first.
fn sixteen(high: u64, low: u64) -> [u8; 16]
    ensures { result ≡ to_be_bytes w64 high ++ to_be_bytes w64 low }
{
    let mut bytes = [0u8; 16];
    let (front, back) = bytes.split_at_mut(8);
    front.copy_from_slice(&high.to_be_bytes());
    back.copy_from_slice(&low.to_be_bytes());
    bytes
}

// The bytes before the first zero.
fn text_of(bytes: &[u8]) -> &[u8]
    ensures { result.now ≡ before_first (λ b. b == 0) bytes.now }
{
    let (text, _) = bytes.split_at(first_zero(bytes));
    text
}

// Where the first zero stands, or the length.
fn first_zero(bytes: &[u8]) -> usize
    ensures at { result ≡ position_or_len (λ b. b == 0) bytes.now }
    ensures within { result ≤ length bytes.now }
{
    'bytes: for (i, b) in bytes.iter().enumerate() {
        if *b == 0 {
            return i;
        }
    }
    bytes.len()
}
