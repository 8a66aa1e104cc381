// Changes of rows.
ghost use Rattle.std.specs.Prelude.{◌≡◌};

/// A change of a row in its place, for `Table::edit`. It cannot fail.
pub trait Change<V> {
    ghost change: { Self → V → V };

    /// Changes the row.
    fn apply(&self, row: &mut V)
        ensures { row.new ≡ change self.now row.old };
}
