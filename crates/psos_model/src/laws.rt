// Laws above the definitions.
ghost use Rattle.psos_model.specs.Laws.{RefusalsDoNothing, NextRises, OthersStay};

/// A refusal changes nothing that users share, and makes no change to its user's own part but the count
/// (docs/promises.md, "Runs").
pub fn refusals_do_nothing()
    ensures { RefusalsDoNothing }
{}

/// The next identifier never falls, and one request uses up at most two (docs/promises.md, "Runs").
pub fn next_rises_by_two()
    ensures { NextRises }
{}

/// A request changes the own part of no user but the one that made it (docs/promises.md, "Runs").
pub fn others_stay()
    ensures { OthersStay }
{}
