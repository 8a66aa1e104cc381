// Kinds of objects.

/// The kinds of things that an identifier may name.
#[derive(Clone, Copy)]
pub enum Kind {
    Segment,
    Directory,
    /// A type of objects.
    Typ,
    Object,
    Code,
    Process,
}
