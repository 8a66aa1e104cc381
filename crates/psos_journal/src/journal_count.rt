// The journal's side of a member's count.
ghost use Rattle.std.specs.Prelude.{◌≡◌, ◌+◌};

use crate::member_count::MemberCount;
use crate::new_ledger::NewLedger;
use crate::single::Single;
use std::sync::ledger::{Book, Ledger};

/// The number of a member's entries, as the journal keeps it: its total. It takes no bytes.
#[derive(Drop)]
pub(crate) struct JournalCount<L: Ledger> {
    pub(crate) book: Book<L>,
}

impl<L: Single> JournalCount<L> {
    /// Both sides of a count, at 0.
    pub(crate) fn open(ledger: NewLedger) -> (JournalCount<L>, MemberCount<L>)
        requires { ledger.blank.name ≡ L.name }
        ensures total { result.0.book.total ≡ 0 }
        ensures amount { result.1.share.amount ≡ 0 }
    {
        let NewLedger { blank } = ledger;
        let (book, share) = blank.open::<L>();
        (JournalCount { book }, MemberCount { share })
    }

    /// Both sides are one number, and more is added to both.
    pub(crate) fn step(&mut self, own: &mut MemberCount<L>, more: u64)
        ensures meets { self.old.book.total ≡ own.old.share.amount }
        ensures total { self.new.book.total ≡ self.old.book.total + more }
        ensures amount { own.new.share.amount ≡ own.old.share.amount + more }
    {
        self.book.audit(&mut own.share);
        self.book.add(&mut own.share, more);
    }
}
