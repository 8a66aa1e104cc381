// Level 7, with the ledger of its store's faults.
ghost use Rattle.std.specs.Prelude.{◌≡◌, ◌<◌, ◌≤◌};
ghost use Rattle.psos_io.specs.Causes.{Rose};

use crate::run::Run;
use psos_io::Store;
use psos_journal::FaultsOf;
use psos_pages::Pages;
use std::marker::Model;
use std::sync::ledger::{Book, Share};

/// Level 7, with that side of the run's ledger of store faults which lies beside the store. Where a fault was counted,
/// the store's own count is above the one that the run began with. It is seen as the level and the number of faults
/// that were counted (docs/levels.md, "Journal").
#[derive(Drop)]
pub struct CountedPages<T: Run, B: Store> {
    pub(crate) pages: Pages<B>,
    pub(crate) faults: Book<FaultsOf<T>>,
}

impl<T: Run, B: Store> Model for CountedPages<T, B> {
    ghost use Rattle.std.specs.Prelude.{ℕ};
    ghost use Rattle.psos_pages.specs.State.{PagesState};
    ghost use Rattle.psos_locks.specs.Faults.{IsCounted};

    ghost Value = { PagesState B × ℕ };

    ghost view = { λ p. (p.pages, p.faults.total) };

    ghost invariant = { λ p. IsCounted T.faults_before (B.faults p.pages.store) p.faults.total };
}

impl<T: Run, B: Store> CountedPages<T, B> {
    /// Level 7 when a run begins, before a fault is counted.
    pub fn new(pages: Pages<B>, faults: Book<FaultsOf<T>>) -> CountedPages<T, B>
        requires start { B.faults pages.store ≡ T.faults_before }
        requires none { faults.total ≡ 0 }
        ensures { result.0 ≡ pages }
    {
        CountedPages { pages, faults }
    }

    /// The level when a run ends. Where a fault was counted on the other side, the store's count is above the one that
    /// the run began with.
    pub fn end(self, share: &mut Share<FaultsOf<T>>) -> Pages<B>
        ensures pages { result ≡ self.0 }
        ensures later { T.faults_before ≤ B.faults self.0.store }
        ensures rose { 0 < share.old.amount → Rose T.faults_before (B.faults self.0.store) }
    {
        let CountedPages { pages, mut faults } = self;
        faults.audit(share);
        pages
    }

    /// A fault of the store is counted on both sides.
    pub(crate) fn count(&mut self, share: &mut Share<FaultsOf<T>>)
        requires failed { Rose T.faults_before (B.faults self.old.0.store) }
        requires one { share.old.parts ≡ 1 }
        ensures pages { self.new.0 ≡ self.old.0 }
        ensures parts { share.new.parts ≡ share.old.parts }
        ensures counted { 0 < share.new.amount }
    {
        self.faults.add(share, 1);
    }
}
