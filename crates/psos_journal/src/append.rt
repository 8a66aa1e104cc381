// An entry at the end of a journal.
ghost use Rattle.std.specs.Prelude.{◌≡◌, ◌+◌, ◌<◌, ◌^◌, ◌++◌, ◌∷◌, [], length, MatchResult};

use crate::cells::Cells;
use crate::entries::Entries;
use crate::names::Names;
use crate::past::Past;

// Puts an entry behind all others. It hands the entry back and changes nothing where memory ran out, or
// where the next cell could not be made.
pub(crate) fn append<T: Names, E>(
    entries: &mut Entries<E>,
    cells: &mut Cells<T, E>,
    past: &mut Past<T, E>,
    entry: E,
    names: u64,
) -> Result<(), E>
    requires all { length past.old ≡ cells.old }
    requires same { length entries.old ≡ cells.old }
    requires room { cells.old + 1 < 2 ^ 32 }
    ensures { MatchResult result
        (λ _. (entries.new ≡ entries.old ++ entry ∷ []) × (cells.new ≡ cells.old + 1) × (past.new ≡ past.old ++ (entry, names) ∷ []))
        (λ e. (e ≡ entry) × (entries.new ≡ entries.old) × (cells.new ≡ cells.old) × (past.new ≡ past.old)) }
{
    if entries.items.reserve(1).is_err() {
        return Err(entry);
    }
    let noted = (entry, names);
    let added = cells.add(past, &noted);
    let (entry, _) = noted;
    if !added {
        return Err(entry);
    }
    entries.items.push_reserved(entry);
    Ok(())
}
