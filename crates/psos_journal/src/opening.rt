// The ledgers of a journal that starts.
ghost use Rattle.std.specs.Prelude.{◌≡◌, replicate};
ghost use Rattle.psos_journal.specs.Counts.{AreCalled, totals};

use crate::blanks::Blanks;
use crate::books::Books;
use crate::mark::Mark;
use crate::names::Names;
use crate::new_members::NewMembers;
use crate::one_of_six::OneOfSix;
use crate::six_counts::SixCounts;
use crate::six_marks::SixMarks;

// Opens six ledgers, and makes their members.
macro_rules! opened {
    ($ledgers:ident, $row:ident, $group:ident) => {{
        let (counts, shares) = SixCounts::open($ledgers);
        $row.add_six(SixMarks {
            first: Mark::$group(OneOfSix::First(shares.first)),
            second: Mark::$group(OneOfSix::Second(shares.second)),
            third: Mark::$group(OneOfSix::Third(shares.third)),
            fourth: Mark::$group(OneOfSix::Fourth(shares.fourth)),
            fifth: Mark::$group(OneOfSix::Fifth(shares.fifth)),
            sixth: Mark::$group(OneOfSix::Sixth(shares.sixth)),
        });
        counts
    }};
}

// Opens the ledgers of the members' counts under their names, and makes the members.
pub(crate) fn open_all<T: Names, E>(ledgers: Blanks, row: &mut NewMembers<T, E>) -> Books<T>
    requires names { AreCalled ledgers T.counts }
    requires row { row.old.next ≡ 0 }
    ensures totals { totals result ≡ replicate 24 0 }
    ensures row { row.new.next ≡ 24 }
{
    let Blanks {
        from0,
        from6,
        from12,
        from18,
    } = ledgers;
    let from0 = opened!(from0, row, From0);
    let from6 = opened!(from6, row, From6);
    let from12 = opened!(from12, row, From12);
    let from18 = opened!(from18, row, From18);
    Books {
        from0,
        from6,
        from12,
        from18,
    }
}
