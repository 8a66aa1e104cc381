// What a run of threads leaves of the levels.
ghost use Rattle.std.specs.Prelude.{◌≡◌, None, IfSome};
ghost use Rattle.psos_core.specs.System.{system_of};
ghost use Rattle.psos_locks.specs.Ending.{system_with, AreGiven};
ghost use Rattle.psos_locks.specs.Ends.{IsGiven};

use arrayvec::ArrayVec;
use psos_calls::{Entry, Private};
use psos_caps::Issuer;
use psos_codes::Codes;
use psos_core::{Levels, Parts};
use psos_dirs::Dirs;
use psos_io::Store;
use psos_journal::{Entries, StopCause};
use psos_life::Life;
use psos_pages::Pages;
use psos_procs::Procs;
use psos_segs::Segs;
use psos_types::Types;

/// The levels but 12 that a run leaves, with the users' own parts.
#[derive(Drop)]
pub(crate) struct Left<B: Store> {
    pub codes: Codes,
    pub life: Life,
    pub dirs: Dirs,
    pub types: Types,
    pub segs: Segs,
    pub pages: Pages<B>,
    pub issuer: Issuer,
    pub parts: Box<ArrayVec<Private, 8>>,
}

impl<B: Store> Left<B> {
    // All levels, with these mailboxes.
    fn with(self, procs: Procs) -> Levels<B>
        ensures system { system_of result ≡ system_with self procs }
        ensures store { result.pages.store ≡ self.pages.store }
    {
        let Left {
            codes,
            life,
            dirs,
            types,
            segs,
            pages,
            issuer,
            parts,
        } = self;
        Levels {
            issuer,
            pages,
            segs,
            types,
            dirs,
            life,
            procs,
            codes,
            privates: parts,
        }
    }

    // The store beneath them.
    fn into_store(self) -> B
        ensures { result ≡ self.pages.store }
    {
        self.pages.into_store()
    }

    /// What the run leaves. Level 12 is wanting only where it was stopped.
    pub fn into_parts(
        self,
        procs: Option<Procs>,
        entries: Entries<Entry>,
        stopped: Option<StopCause>,
    ) -> Parts<B>
        requires some { stopped ≡ None → procs ≡ None → ⊥ }
        ensures entries { result.entries ≡ entries }
        ensures stopped { result.stopped ≡ stopped }
        ensures store_faults { result.store_faults ≡ B.faults self.pages.store }
        ensures given { IsGiven B.faults stopped result.levels result.store result.store_faults }
        ensures levels { IfSome result.levels (AreGiven self procs stopped) }
    {
        let Some(procs) = procs else {
            let store_faults = self.pages.store_faults();
            return Parts {
                entries,
                levels: None,
                store: Some(self.into_store()),
                store_faults,
                stopped,
            };
        };
        Parts::new(entries, self.with(procs), stopped)
    }
}
