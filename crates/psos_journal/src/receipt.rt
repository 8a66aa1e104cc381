// What a member knows of its last entry.
ghost use Rattle.std.specs.Prelude.{◌≡◌, ◌+◌, length};

use crate::names::Names;
use crate::past::Past;
use std::marker::Model;

/// That an entry stands in the journal, with all entries before it. It is seen as the entry's stamp and
/// the journal's entries up to it.
#[derive(Drop)]
pub struct Receipt<T: Names, E> {
    pub(crate) stamp: u32,
    pub(crate) past: Past<T, E>,
}

impl<T: Names, E> Model for Receipt<T, E> {
    ghost use Rattle.std.specs.Prelude.{◌≡◌, ◌+◌, length};
    ghost use Rattle.psos_journal.specs.Views.{Known};

    ghost Value = { Known E };

    ghost view = { λ r. record { stamp = r.stamp; past = r.past } };

    ghost invariant = { λ r. r.stamp + 1 ≡ length r.past };
}

impl<T: Names, E> Receipt<T, E> {
    /// The stamp of the entry.
    pub fn stamp(&self) -> u32
        ensures stamp { result ≡ self.now.stamp }
        ensures length { result + 1 ≡ length self.now.past }
    {
        self.stamp
    }
}
