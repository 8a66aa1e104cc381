// The rule over the cells of a journal's entries, and the steps that keep it. No value of these types is made.
use logbook::{Gain, Plain, Play, Rule};

/// The rule: which cells are full.
pub struct Law;

impl<E> Rule<Option<(E, u64)>, u64> for Law {
    ghost use Rattle.std.specs.Prelude.{[]};
    ghost use base.Fml.{ftrue};
    ghost use Rattle.psos_journal.specs.Cells.{AreFilled};

    ghost holds = { λ cells log. AreFilled cells log };

    ghost first = { [] };

    ghost hinted = { λ n log. Unit {0} };

    ghost shows = { λ log. [] };

    ghost keeps = { λ names log. ftrue };

    ghost moves = { λ ask before after answer. Unit {0} };
}

/// Callers trade nothing.
pub struct Nothing;

impl<E> Gain<Option<(E, u64)>, u64> for Nothing {
    ghost use base.Fml.{ftrue};

    ghost after = { λ names about answer. ftrue };
}

/// A step that makes a cell.
pub struct Make;

impl<E> Play<Option<(E, u64)>, u64> for Make {
    ghost use Rattle.psos_journal.specs.Cells.{Makes};

    ghost then = { Makes };
}

/// A step that fills a cell with an entry.
pub struct Add;

impl<E> Play<Option<(E, u64)>, u64> for Add {
    ghost use Rattle.psos_journal.specs.Cells.{Adds};

    ghost then = { Adds };
}

/// It asks for the entry with its names.
impl<E> Plain<(E, u64), Option<(E, u64)>, u64> for Add {
    ghost use Rattle.std.specs.Prelude.{None, Some};

    ghost ask = { λ x. Some x };

    ghost state = { λ x. None };
}

/// A step that looks.
pub struct Look;

impl<E> Play<Option<(E, u64)>, u64> for Look {
    ghost use Rattle.psos_journal.specs.Cells.{Looks};

    ghost then = { Looks };
}

/// It asks for nothing.
impl<E> Plain<(), Option<(E, u64)>, u64> for Look {
    ghost use Rattle.std.specs.Prelude.{None};

    ghost ask = { λ x. None };

    ghost state = { λ x. None };
}
