// The text of a name.
ghost use Rattle.std.specs.Prelude.{◌≡◌, ◌≤◌, length};
ghost use Rattle.psos_text.specs.Name.{name_text};

use psos_text::Name;

/// The text of a name, with its length.
pub(crate) fn text_of(name: &Name) -> &[u8]
    ensures text { result.now ≡ name_text name.now }
    ensures few { length result.now ≤ 16 }
{
    // A proof knows from it that a name has sixteen bytes.
    let _all = name.to_bytes();
    name.as_bytes()
}
