// The identifiers of boot.
ghost use Rattle.std.specs.Prelude.{◌≡◌, ◌≤◌};
ghost use Rattle.psos_model.specs.Flat.Boot.{process_of, home_of, home_rep_of, scratch_of};

/// The process of user i (docs/system.md, "Boot"). There are at most eight users.
pub fn process_of(i: u64) -> u64
    requires { i ≤ 8 }
    ensures { result ≡ process_of i }
{
    3 + 4 * i
}

/// The home directory of user i.
pub fn home_of(i: u64) -> u64
    requires { i ≤ 8 }
    ensures { result ≡ home_of i }
{
    4 + 4 * i
}

/// The representation of the home directory of user i.
pub fn home_rep_of(i: u64) -> u64
    requires { i ≤ 8 }
    ensures { result ≡ home_rep_of i }
{
    5 + 4 * i
}

/// The scratch segment of user i.
pub fn scratch_of(i: u64) -> u64
    requires { i ≤ 8 }
    ensures { result ≡ scratch_of i }
{
    6 + 4 * i
}
