// Laws of a run of threads.
ghost use Rattle.psos_locks.specs.Ends.{EndsAreRuns};

use psos_io::Store;

/// A run of threads that has ended, with all its users through or one of them halted, is a whole run from boot where it
/// was not stopped, in whatever order, and a front of one where it was (docs/levels.md, "Locks").
pub fn ends_are_runs<B: Store>()
    ensures { EndsAreRuns B.faults }
{}
