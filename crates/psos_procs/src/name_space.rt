// Name spaces.
ghost use Rattle.std.specs.Prelude.{◌≡◌, ◌<◌, ◌↔◌, [], ◌∷◌, ◌++◌, length, IsOk, OnOk, OnErr, IfErr};

use psos_calls::{Path, Refusal, Tab};
use psos_caps::Cap;
use psos_limits::MOST_PATH;

/// A directory goes last into a name space. `exhausted path` exactly where it holds four, and then it stays as it is
/// (docs/system.md, "Limits"). It takes no memory. No level and no plan calls it: the plan of `path` makes the test, and
/// the close of its request adds the directory. Here both are one step, for who has a name space by itself.
pub fn path_push(path: &mut Path, cap: Cap) -> Result<(), Refusal>
    ensures room { IsOk result ↔ (length path.old < 4) }
    ensures ok { OnOk result (path.new ≡ path.old ++ cap ∷ []) }
    ensures err { OnErr result (path.new ≡ path.old) }
    ensures why { IfErr result (λ refusal. refusal ≡ Refusal.Exhausted Tab.Path) }
{
    if path.len() >= MOST_PATH {
        return Err(Refusal::Exhausted(Tab::Path));
    }
    path.push(cap);
    Ok(())
}
