// The steps over the cells of a journal's entries.
ghost use Rattle.std.specs.Prelude.{◌≡◌, ◌+◌, ◌<◌, ◌≤◌, ◌^◌, ◌++◌, ◌∷◌, [], suc, length, IfSome};
ghost use mathlib.Core.List.{IsPrefix};
ghost use Rattle.logbook.specs.Pages.{nib, may_write};
ghost use Rattle.psos_journal.specs.Cells.{count_word, entries_in};

use crate::law::{Add, Law, Look, Make, Nothing};
use logbook::{Offer, Pen, Seen, Word};

// Makes one more cell, and gives the right to fill it. None where there are not as many as expected.
pub(crate) fn make<E>(
    count: &Word<Option<(E, u64)>, u64, Law>,
    seen: &Seen<Option<(E, u64)>, u64, Law>,
    cells: u64,
) -> Option<Pen>
    requires { (count.now ≡ count_word seen.now.book) × (cells < 2 ^ 63) }
    ensures { IfSome result (λ p. (p.book ≡ seen.now.book) × (p.nib ≡ nib may_write cells 0)) }
{
    let mut seen = seen.again();
    let mut offer: Offer<Option<(E, u64)>, u64, Law, Nothing> = seen.plain::<Nothing, (), Look>(
        &(),
    );
    let mut pen = seen.no_pen();
    let found = count.compare_exchange::<Make, Nothing>(
        cells,
        cells + 1,
        &mut seen,
        &mut offer,
        &mut pen,
    );
    if found != cells {
        return None;
    }
    let _cell: Word<Option<(E, u64)>, u64, Law> = Word::tracked(0, &mut pen);
    Some(pen)
}

// Fills the pen's cell with the entry behind all that was seen.
pub(crate) fn fill<E>(
    count: &Word<Option<(E, u64)>, u64, Law>,
    seen: &mut Seen<Option<(E, u64)>, u64, Law>,
    pen: &mut Pen,
    entry: &(E, u64),
)
    requires word { count.now ≡ count_word seen.old.book }
    requires book { pen.old.book ≡ seen.old.book }
    requires next { pen.old.nib ≡ nib may_write (suc (suc (length (entries_in seen.old.log)))) 0 }
    ensures book { seen.new.book ≡ seen.old.book }
    ensures added { entries_in seen.new.log ≡ entries_in seen.old.log ++ entry.now ∷ [] }
{
    let mut offer: Offer<Option<(E, u64)>, u64, Law, Nothing> = seen.plain::<
        Nothing,
        (E, u64),
        Add,
    >(entry);
    count.compare_exchange::<Add, Nothing>(0, 0, seen, &mut offer, pen);
}

// Sees that no entry is behind the pen's cell.
pub(crate) fn look<E>(
    count: &Word<Option<(E, u64)>, u64, Law>,
    seen: &mut Seen<Option<(E, u64)>, u64, Law>,
    pen: &mut Pen,
    full: u64,
)
    requires word { count.now ≡ count_word seen.old.book }
    requires book { pen.old.book ≡ seen.old.book }
    requires next { pen.old.nib ≡ nib may_write (suc (suc full)) 0 }
    ensures seen { (seen.new.book ≡ seen.old.book) × IsPrefix seen.old.log seen.new.log }
    ensures pen { (pen.new.book ≡ pen.old.book) × (pen.new.nib ≡ pen.old.nib) }
    ensures all { length (entries_in seen.new.log) ≤ full }
{
    let mut offer: Offer<Option<(E, u64)>, u64, Law, Nothing> = seen.plain::<Nothing, (), Look>(
        &(),
    );
    // The contract speaks of it, and the steps read the count from the pen.
    let _ = full;
    count.compare_exchange::<Look, Nothing>(0, 0, seen, &mut offer, pen);
}
