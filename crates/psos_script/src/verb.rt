// The words that begin requests.

/// A word that begins a request's line.
#[derive(Clone, Copy, PartialEq, Eq, Debug)]
pub enum Verb {
    Mint,
    Restrict,
    Set,
    Move,
    Add,
    Read,
    Write,
    Window,
    Length,
    Lookup,
    Bind,
    Unbind,
    List,
    Impl,
    MkSeg,
    MkDir,
    MkType,
    MkObj,
    MkCode,
    Delete,
    Send,
    Recv,
    Call,
    Path,
    Find,
}
