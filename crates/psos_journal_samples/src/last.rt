// Members one by one.
ghost use Rattle.std.specs.Prelude.{◌≡◌, ℕ, ◌+◌, IfSome, Some, slice_get, vec_len};
ghost use Rattle.psos_journal.specs.Views.{Side, new_side};

use psos_journal::{Member, Names};

/// The last of members that are still as they began.
pub(crate) fn last_of<T: Names>(members: &mut Vec<Member<T, u8>>) -> Option<Member<T, u8>>
    requires { (k : ℕ) (m : Side ℕ) → slice_get members.old.items k ≡ Some m → m ≡ new_side k }
    ensures last { IfSome result (λ m. (m ≡ new_side (vec_len members.new)) × (vec_len members.new + 1 ≡ vec_len members.old)) }
    ensures order { (k : ℕ) (m : Side ℕ) → slice_get members.new.items k ≡ Some m → m ≡ new_side k }
{
    members.pop()
}
