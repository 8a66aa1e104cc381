// The ledgers of 24 members before they have names.
use crate::six_blanks::SixBlanks;

/// A new ledger for each member, in four groups of six.
#[derive(Drop)]
pub(crate) struct Blanks {
    pub(crate) from0: SixBlanks,
    pub(crate) from6: SixBlanks,
    pub(crate) from12: SixBlanks,
    pub(crate) from18: SixBlanks,
}

impl Blanks {
    pub(crate) fn new() -> Blanks {
        Blanks {
            from0: SixBlanks::new(),
            from6: SixBlanks::new(),
            from12: SixBlanks::new(),
            from18: SixBlanks::new(),
        }
    }
}
