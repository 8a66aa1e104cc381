// How many rows each class has. A class with no row has no count.
ghost use Rattle.std.specs.Prelude.{◌≡◌, ◌+◌, ◌<◌, ◌^◌, OnOk, OnErr};
ghost use Rattle.psos_table.specs.Table.{put};
ghost use Rattle.psos_counts.specs.Counted.{count_in, one_fewer};

use psos_table::{Change, Table};
use std::alloc::AllocError;

// One less.
struct Less;

impl Change<usize> for Less {
    ghost use Rattle.std.specs.Prelude.{◌-◌};

    ghost change = { λ _ n. n - 1 };

    fn apply(&self, row: &mut usize) {
        *row = row.saturating_sub(1);
    }
}

/// How many rows a class has.
pub(crate) fn count_in(counts: &Table<usize>, class: u64) -> usize
    ensures { result ≡ count_in counts.now class }
{
    match counts.get(class) {
        Some(count) => *count,
        None => 0,
    }
}

/// One row more of a class. `Err` only where memory runs out, and changes nothing.
pub(crate) fn count_up(counts: &mut Table<usize>, class: u64) -> Result<(), AllocError>
    requires { count_in counts.old class + 1 < 2 ^ 64 }
    ensures ok { OnOk result (counts.new ≡ put counts.old class (count_in counts.old class + 1)) }
    ensures err { OnErr result (counts.new ≡ counts.old) }
{
    let count = count_in(counts, class);
    counts.put(class, count + 1)
}

/// One row less of a class.
pub(crate) fn count_down(counts: &mut Table<usize>, class: u64)
    ensures { counts.new ≡ one_fewer counts.old class }
{
    if count_in(counts, class) <= 1 {
        counts.remove(class);
    } else {
        counts.edit(class, &Less);
    }
}
