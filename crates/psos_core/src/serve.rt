// One request of one user.
ghost use Rattle.std.specs.Prelude.{◌≡◌, ◌≤◌, length, OnOk, OnErr};
ghost use Rattle.psos_core.specs.System.{system_of};
ghost use Rattle.psos_core.specs.Faults.{MayStop};
ghost use Rattle.psos_core.specs.Serving.{Asks, IsServed};

use crate::Levels;
use crate::perform::{Closing, perform};
use psos_calls::{Entry, Request, Script, Trace};
use psos_io::Store;
use psos_journal::{Entries, StopCause};
use std::alloc::Global;

/// Serves the next request of user u: runs its plan, puts its entry last and settles its effect. It stops for want of
/// memory, or for a fault of the store, which its count shows; then the request has not closed: no entry is added, and
/// the users' own parts are as they were. What takes memory comes before the effect is settled.
pub(crate) fn serve<B: Store>(
    alloc: Global,
    script: &Script,
    levels: &mut Levels<B>,
    trace: &mut Trace,
    entries: &mut Entries<Entry>,
    u: u8,
    request: &Request,
) -> Result<(), StopCause>
    requires asks { Asks script.now (system_of levels.old) u request.now }
    requires few { length entries.old ≤ 32768 }
    ensures served { OnOk result (IsServed script.now (system_of levels.old) entries.old u (system_of levels.new) entries.new) }
    ensures privates { OnErr result (levels.new.privates ≡ levels.old.privates) }
    ensures entries { OnErr result (entries.new ≡ entries.old) }
    ensures users { length levels.new.privates.value.items ≡ length levels.old.privates.value.items }
    ensures cause { MayStop (B.faults levels.old.pages.store) (B.faults levels.new.pages.store) result }
{
    trace.clear();
    let (n, m) = levels.privates.as_slice()[u as usize].place();
    let closing = perform(alloc, levels, u, request, trace)?;
    let Ok(steps) = trace.calls(alloc) else {
        return Err(StopCause::Memory);
    };
    let Closing { reply, effect } = closing;
    let entry = Entry {
        user: u,
        n,
        m,
        steps,
        reply,
    };
    if entries.push(entry).is_err() {
        return Err(StopCause::Memory);
    }
    levels.privates.as_mut_slice()[u as usize].settle(&effect, script);
    Ok(())
}
