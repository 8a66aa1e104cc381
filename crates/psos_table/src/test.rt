// Tests of rows.
ghost use Rattle.std.specs.Prelude.{◌≡◌, Bool};

/// A test of rows, for `Table::keep`.
pub trait Test<V> {
    ghost test: { Self → V → Bool };

    /// Whether the row passes.
    fn passes(&self, row: &V) -> bool
        ensures { result ≡ test self.now row.now };
}
