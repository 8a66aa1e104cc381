// The journal's side of all members' counts.
ghost use Rattle.std.specs.Prelude.{◌≡◌, ◌+◌, slice_index, slice_set};
ghost use Rattle.psos_journal.specs.Counts.{number_of, amount_of, totals};

use crate::group::SixFrom;
use crate::mark::Mark;
use crate::names::Names;
use crate::six_counts::SixCounts;

/// The number of the entries of each of 24 members, as the journal keeps it, in four groups of six.
#[derive(Drop)]
pub(crate) struct Books<T: Names> {
    pub(crate) from0: SixCounts<SixFrom<T, 0>>,
    pub(crate) from6: SixCounts<SixFrom<T, 6>>,
    pub(crate) from12: SixCounts<SixFrom<T, 12>>,
    pub(crate) from18: SixCounts<SixFrom<T, 18>>,
}

impl<T: Names> Books<T> {
    /// Both sides of the member's count are one number, and more is added to both.
    pub(crate) fn step(&mut self, mark: &mut Mark<T>, more: u64)
        ensures meets { slice_index (totals self.old) (number_of mark.old) ≡ amount_of mark.old }
        ensures totals { totals self.new ≡ slice_set (totals self.old) (number_of mark.old) (amount_of mark.old + more) }
        ensures number { number_of mark.new ≡ number_of mark.old }
        ensures amount { amount_of mark.new ≡ amount_of mark.old + more }
    {
        match mark {
            Mark::From0(own) => self.from0.step(own, more),
            Mark::From6(own) => self.from6.step(own, more),
            Mark::From12(own) => self.from12.step(own, more),
            Mark::From18(own) => self.from18.step(own, more),
        }
    }
}
