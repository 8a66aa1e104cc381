// What a run is of.
use psos_journal::Names;
use std::marker::Brand;

/// What a run of threads calls its ghost values, and the script that it is of. A run picks both once, where it hands
/// `Brand` to the function that is generic over them (docs/levels.md, "Journal").
pub trait Run: Names {
    ghost use Rattle.std.specs.Prelude.{ℕ};
    ghost use Rattle.psos_calls.specs.Language.Script.{Script};

    // The script of the run.
    ghost script: { Script };

    // The store's count of faults when the run begins.
    ghost faults_before: { ℕ };
}

impl Run for Brand {
    ghost use Rattle.std.specs.Prelude.{[]};

    ghost script = { record { codes = []; users = [] } };

    ghost faults_before = { 0 };
}
