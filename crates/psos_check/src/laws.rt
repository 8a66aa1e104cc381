// What follows from the definitions.
ghost use Rattle.psos_check.specs.Laws.{OneTextOnly, StampsAreBelow};

/// A law, and no work: a text is one thing only. It is not too long and read, a line of it is not the first that is no
/// transcript's and another one too, and it does not say two lists.
pub fn one_text_only()
    ensures { OneTextOnly }
{}

/// A law, and no work: where each number below the number of lines is the stamp of one line, there is no other stamp.
pub fn stamps_are_below()
    ensures { StampsAreBelow }
{}
