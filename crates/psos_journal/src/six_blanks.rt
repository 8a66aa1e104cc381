// The ledgers of six members before they have names.
use crate::new_ledger::NewLedger;

/// A new ledger for each of six members.
#[derive(Drop)]
pub(crate) struct SixBlanks {
    pub(crate) first: NewLedger,
    pub(crate) second: NewLedger,
    pub(crate) third: NewLedger,
    pub(crate) fourth: NewLedger,
    pub(crate) fifth: NewLedger,
    pub(crate) sixth: NewLedger,
}

impl SixBlanks {
    pub(crate) fn new() -> SixBlanks {
        SixBlanks {
            first: NewLedger::new(),
            second: NewLedger::new(),
            third: NewLedger::new(),
            fourth: NewLedger::new(),
            fifth: NewLedger::new(),
            sixth: NewLedger::new(),
        }
    }
}
