// Names.
ghost use Rattle.std.specs.Prelude.{◌≡◌, ◌≤◌, if◌then◌else◌, [], length, IsTrue, IfOk};
ghost use Rattle.std.specs.List.{list_all};
ghost use Rattle.psos_text.specs.Name.{is_name as named, is_name_byte as byte_named, name_of, name_text, with_bytes, IsName};

use crate::fault::TextFault;
use crate::finds::first_at;

/// A name: one to sixteen bytes, each of `a` to `z`, `0` to `9`, `_` or `-`. It is a plain value of sixteen bytes,
/// with zeros behind its text, and takes no memory. Two names are equal exactly where their texts are.
#[derive(Clone, Copy, PartialEq, Eq, PartialOrd, Ord, Debug)]
pub struct Name {
    bytes: [u8; 16],
}

impl Name {
    /// The name with this text. The only fault is `TextFault::Name`, exactly where the bytes are no name.
    pub fn read(b: &[u8]) -> Result<Name, TextFault>
        ensures value { result ≡ (if named b.now then Ok (name_of b.now) else Err TextFault.Name) }
        ensures name { IfOk result IsName }
        ensures text { IfOk result (λ n. name_text n ≡ b.now) }
    {
        if !is_name(b) {
            return Err(TextFault::Name);
        }
        Ok(filled(b))
    }

    /// Its text, without the zeros behind it.
    pub fn as_bytes(&self) -> &[u8]
        ensures { result.now ≡ name_text self.now }
    {
        let (text, _) = self.bytes.split_at(first_at(0, &self.bytes));
        text
    }

    /// Its sixteen bytes: its text, and zeros behind it.
    pub fn to_bytes(self) -> [u8; 16]
        ensures { result ≡ self.bytes }
    {
        self.bytes
    }

    /// The name whose sixteen bytes these are: a text, and zeros behind it.
    pub fn from_bytes(bytes: [u8; 16]) -> Name
        requires { IsName (with_bytes bytes) }
        ensures { result ≡ with_bytes bytes }
    {
        Name { bytes }
    }
}

/// The value with no text: sixteen zeros. It is no name, and serves to fill a place that holds none.
impl Default for Name {
    ghost is_default = { λ n. n ≡ name_of [] };

    fn default() -> Name {
        Name { bytes: [0; 16] }
    }
}

// The value with this text, and zeros behind it.
fn filled(b: &[u8]) -> Name
    requires { length b.now ≤ 16 }
    ensures { result ≡ name_of b.now }
{
    let mut bytes = [0u8; 16];
    let (front, _) = bytes.split_at_mut(b.len());
    front.copy_from_slice(b);
    Name { bytes }
}

fn is_name(b: &[u8]) -> bool
    ensures value { result ≡ named b.now }
    ensures short { IsTrue result → length b.now ≤ 16 }
{
    1 <= b.len() && b.len() <= 16 && all_name_bytes(b)
}

fn all_name_bytes(b: &[u8]) -> bool
    ensures { result ≡ list_all byte_named b.now }
{
    b.iter().all(|x| is_name_byte(*x))
}

fn is_name_byte(b: u8) -> bool
    ensures { result ≡ byte_named b }
{
    (b'a' <= b && b <= b'z') || (b'0' <= b && b <= b'9') || b == b'_' || b == b'-'
}
