// Laws above the levels.
ghost use Rattle.psos_calls.specs.Levels.Refusals.{RefusedCallsChangeNothing};

/// A call that its level refuses, at any level and in any state, leaves all levels as they were
/// (docs/levels.md, "Levels").
pub fn refused_calls_change_nothing()
    ensures { RefusedCallsChangeNothing }
{}
