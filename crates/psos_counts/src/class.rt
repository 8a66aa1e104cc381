// Classes of rows.
ghost use Rattle.std.specs.Prelude.{◌≡◌, ℕ, Option};

/// How rows are divided into classes. A class is a number; a row has one or none.
pub trait Class<V> {
    ghost class: { V → Option ℕ };

    /// The class of a row.
    fn class_of(row: &V) -> Option<u64>
        ensures { result ≡ class row.now };
}
