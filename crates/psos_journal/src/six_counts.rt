// The journal's side of the counts of six members.
ghost use Rattle.std.specs.Prelude.{◌≡◌, ◌+◌, ◌<◌, slice_index, slice_set, replicate};
ghost use Rattle.psos_journal.specs.Counts.{place_of, amount_at, six_totals, AreSixCalled, AreZero};

use crate::count_of::CountOf;
use crate::group::Group;
use crate::journal_count::JournalCount;
use crate::one_of_six::OneOfSix;
use crate::six_blanks::SixBlanks;
use crate::six_shares::SixShares;

/// The number of the entries of each member of a group, as the journal keeps it.
#[derive(Drop)]
pub(crate) struct SixCounts<G: Group> {
    pub(crate) first: JournalCount<CountOf<G, 0>>,
    pub(crate) second: JournalCount<CountOf<G, 1>>,
    pub(crate) third: JournalCount<CountOf<G, 2>>,
    pub(crate) fourth: JournalCount<CountOf<G, 3>>,
    pub(crate) fifth: JournalCount<CountOf<G, 4>>,
    pub(crate) sixth: JournalCount<CountOf<G, 5>>,
}

impl<G: Group> SixCounts<G> {
    /// Both sides of six counts, at 0.
    pub(crate) fn open(ledgers: SixBlanks) -> (SixCounts<G>, SixShares<G>)
        requires { AreSixCalled ledgers G.counts }
        ensures totals { six_totals result.0 ≡ replicate 6 0 }
        ensures amounts { AreZero result.1 }
    {
        let (first, own_first) = JournalCount::open(ledgers.first);
        let (second, own_second) = JournalCount::open(ledgers.second);
        let (third, own_third) = JournalCount::open(ledgers.third);
        let (fourth, own_fourth) = JournalCount::open(ledgers.fourth);
        let (fifth, own_fifth) = JournalCount::open(ledgers.fifth);
        let (sixth, own_sixth) = JournalCount::open(ledgers.sixth);
        (
            SixCounts {
                first,
                second,
                third,
                fourth,
                fifth,
                sixth,
            },
            SixShares {
                first: own_first,
                second: own_second,
                third: own_third,
                fourth: own_fourth,
                fifth: own_fifth,
                sixth: own_sixth,
            },
        )
    }

    /// Both sides of the member's count are one number, and more is added to both.
    pub(crate) fn step(&mut self, mark: &mut OneOfSix<G>, more: u64)
        ensures meets { slice_index (six_totals self.old) (place_of mark.old) ≡ amount_at mark.old }
        ensures totals { six_totals self.new ≡ slice_set (six_totals self.old) (place_of mark.old) (amount_at mark.old + more) }
        ensures place { (place_of mark.new ≡ place_of mark.old) × (place_of mark.old < 6) }
        ensures amount { amount_at mark.new ≡ amount_at mark.old + more }
    {
        match mark {
            OneOfSix::First(own) => self.first.step(own, more),
            OneOfSix::Second(own) => self.second.step(own, more),
            OneOfSix::Third(own) => self.third.step(own, more),
            OneOfSix::Fourth(own) => self.fourth.step(own, more),
            OneOfSix::Fifth(own) => self.fifth.step(own, more),
            OneOfSix::Sixth(own) => self.sixth.step(own, more),
        }
    }
}
