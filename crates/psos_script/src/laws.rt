// Laws above the reading of scripts.
ghost use Rattle.std.specs.Prelude.{◌≡◌, ◌↔◌, ◌≤◌, ℕ, List, length, Some, None};
ghost use Rattle.psos_text.specs.Lines.{lines_of};
ghost use Rattle.psos_calls.specs.Language.Script.{Script};
ghost use Rattle.psos_model.specs.Text.Spelling.{IsScript};
ghost use Rattle.psos_script.specs.Fault.{fault_of};
ghost use Rattle.psos_script.specs.LeastFault.{IsLeastFault};
ghost use Rattle.psos_script.specs.declared.cause.Cause.{Cause as Why};

/// A law, and no work: bytes have no fault exactly where they spell a script.
pub fn no_fault_is_a_script()
    ensures { (bytes : List ℕ) → (fault_of bytes ≡ None) ↔ ((s : Script) × IsScript bytes s) }
{}

/// A law, and no work: the same bytes spell one script only.
pub fn one_script_only()
    ensures { (bytes : List ℕ) (s t : Script) → IsScript bytes s → IsScript bytes t → s ≡ t }
{}

/// A law, and no work: the fault of bytes that are not too many stands on the least line that has a cause, and is the
/// first cause on it. Line lines + 1 is the one behind the last.
pub fn the_least_fault_is_reported()
    ensures { (bytes : List ℕ) (n : ℕ) (c : Why) → length bytes ≤ 1048576 → (fault_of bytes ≡ Some (n, c)) ↔ IsLeastFault (lines_of bytes) n c }
{}
