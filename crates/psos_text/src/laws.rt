// What is printed is read back, and how a text is cut.
ghost use Rattle.std.specs.Prelude.{◌≡◌, ◌==◌, ℕ, ◌<◌, ◌^◌, List, ◌∷◌, length, decimal, IsTrue};
ghost use Rattle.std.specs.List.{before_first, after_first};
ghost use Rattle.psos_text.specs.declared.name.Name.{Name as Value};
ghost use Rattle.psos_text.specs.Name.{is_name, name_of, name_text, IsName};
ghost use Rattle.psos_text.specs.Number.{number_of};
ghost use Rattle.psos_text.specs.Hex.{hex4, hex_of};
ghost use Rattle.psos_text.specs.Lines.{lines_of};

/// A law, and no work: the text of a name is read as this name, and a name that was read has the text it was read
/// from.
pub fn names_are_read_back()
    ensures name { (n : Value) → IsName n → name_of (name_text n) ≡ n }
    ensures text { (text : List ℕ) → IsTrue (is_name text) → name_text (name_of text) ≡ text }
    ensures named { (text : List ℕ) → IsTrue (is_name text) → IsName (name_of text) }
{}

/// A law, and no work: the digits of a number below 2^64 are read as this number.
pub fn numbers_are_read_back()
    ensures { (n : ℕ) → n < 2 ^ 64 → number_of (decimal n) ≡ Some n }
{}

/// A law, and no work: the four hexadecimal digits of a number below 2^16 are read as this number.
pub fn hex_is_read_back()
    ensures { (n : ℕ) → n < 2 ^ 16 → hex_of (hex4 n) ≡ Some n }
{}

/// A law, and no work: the lines of a text that is not empty are the bytes before its first line feed, and the lines
/// of what stands behind it.
pub fn lines_are_cut()
    ensures { (text : List ℕ) → 0 < length text → lines_of text ≡ before_first (λ b. b == 10) text ∷ lines_of (after_first (λ b. b == 10) text) }
{}
