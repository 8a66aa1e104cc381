// Guards of stores.
use crate::report::Report;
use psos_caps::{Cap, Issuer, Rights, Uid};
use psos_guards::{admits, has_bit};
use psos_words::Word;

// Guards, and rights of a capability that goes into a store with that guard.
const ROWS: [(u16, u16); 9] = [
    (0, 0),
    (7, 7),
    (8, 0),
    (1, 6),
    (3, 1),
    (7, 3),
    (6, 0),
    (4, 65531),
    (65528, 7),
];

/// Tells of each row which bit the capability lacks, and that data goes in.
pub fn show(report: &mut Report) {
    report.library(b"psos_guards");
    let full = Issuer::new(Uid(1)).fresh();
    'rows: for (guard, rights) in ROWS {
        row(report, full, Rights::of(guard), Rights::of(rights));
    }
    report.truth(b"8000 has bit 15", has_bit(Rights::of(32768), 15));
    report.truth(b"8000 has bit 14", has_bit(Rights::of(32768), 14));
}

// A capability with these rights, and data, into a store with this guard.
fn row(report: &mut Report, full: Cap, guard: Rights, rights: Rights) {
    let cap = full.restrict(rights);
    report.lacking(guard, rights, admits(guard, Word::Cap(cap)).err());
    report.truth(b"data passes", admits(guard, Word::Data(0)).is_ok());
}
