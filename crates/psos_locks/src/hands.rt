// The locks that a request holds.
ghost use Rattle.std.specs.Prelude.{◌≡◌, ◌<◌, ◌^◌, [], ◌∷◌, ◌++◌, true, length, Some, option_map, IfErr, OnOk};
ghost use Rattle.psos_limits.specs.declared.TheConstants.{TRACE_ROOM};
ghost use Rattle.psos_calls.specs.Levels.{level_of};
ghost use Rattle.psos_calls.specs.Language.Script.{IsWellFormed};
ghost use Rattle.psos_calls.specs.Locks.{lock_of};
ghost use Rattle.psos_calls.specs.Locks.Held.{is_held};
ghost use Rattle.psos_core.specs.Faults.{CanFault};
ghost use Rattle.psos_histories.specs.Closes.{bits_for};
ghost use Rattle.psos_histories.specs.Grips.{locks_of, HaveMet};
ghost use Rattle.psos_histories.specs.Requests.{called, step_in, CanIn};
ghost use Rattle.psos_locks.specs.Grips.{box_grip, grips_of, slots_of};
ghost use Rattle.psos_locks.specs.Places.{holds_in, left_by, MaySettle, HasFailed};

use crate::book::Book;
use crate::counted_pages::CountedPages;
use crate::held::Held;
use crate::places::{make_one, meet_one, name_one, settle_one};
use crate::run::Run;
use psos_calls::{Entry, Level, LevelCall, LevelFault, Trace};
use psos_caps::Issuer;
use psos_codes::Codes;
use psos_dirs::Dirs;
use psos_io::Store;
use psos_journal::{FaultsOf, Journal, Pen};
use psos_life::Life;
use psos_procs::Mailbox;
use psos_segs::Segs;
use psos_types::Types;
use std::alloc::Global;
use std::sync::MutexGuard;
use std::sync::ledger::Share;

/// The locks that a request holds: at most one of each level, since two mailboxes are never held together. They are
/// seen as their grips, the one that was taken last first (docs/levels.md, "Locks").
#[derive(Drop)]
pub struct Hands<'a, T: Run, B: Store> {
    pub(crate) codes: Option<MutexGuard<'a, Held<T, Codes>>>,
    pub(crate) mailbox: Option<MutexGuard<'a, Held<T, Mailbox>>>,
    pub(crate) life: Option<MutexGuard<'a, Held<T, Life>>>,
    pub(crate) dirs: Option<MutexGuard<'a, Held<T, Dirs>>>,
    pub(crate) types: Option<MutexGuard<'a, Held<T, Types>>>,
    pub(crate) segs: Option<MutexGuard<'a, Held<T, Segs>>>,
    pub(crate) pages: Option<MutexGuard<'a, Held<T, CountedPages<T, B>>>>,
    pub(crate) issuer: Option<MutexGuard<'a, Held<T, Issuer>>>,
}

impl<'a, T: Run, B: Store> Hands<'a, T, B> {
    /// No lock.
    pub fn empty() -> Hands<'a, T, B>
        ensures { grips_of result ≡ [] }
    {
        Hands {
            codes: None,
            mailbox: None,
            life: None,
            dirs: None,
            types: None,
            segs: None,
            pages: None,
            issuer: None,
        }
    }

    /// Whether the lock of a call is held.
    pub fn holds(&self, users: u8, level: Level, call: &LevelCall) -> bool
        requires script { IsWellFormed T.script }
        requires users { users ≡ length T.script.users }
        requires level { level_of call.now ≡ level }
        ensures { result ≡ is_held (locks_of (grips_of self.now)) (lock_of users call.now) }
    {
        match level {
            Level::L13 => self.codes.is_some(),
            Level::L12 => is_box(&self.mailbox, users, call),
            Level::L11 => self.life.is_some(),
            Level::L10 => self.dirs.is_some(),
            Level::L9 => self.types.is_some(),
            Level::L8 => self.segs.is_some(),
            Level::L7 => self.pages.is_some(),
            Level::L0 => self.issuer.is_some(),
        }
    }

    /// Makes a call under its lock, which is held, and adds it to the trace with its answer. `Err` where the level's
    /// own call has one.
    pub fn make(
        &mut self,
        alloc: Global,
        users: u8,
        level: Level,
        call: &LevelCall,
        trace: &mut Trace,
    ) -> Result<(), LevelFault>
        requires users { users ≡ length T.script.users }
        requires level { level_of call.now ≡ level }
        requires held { is_held (locks_of (grips_of self.old)) (lock_of users call.now) ≡ true }
        requires can { CanIn (grips_of self.old) (lock_of users call.now) call.now }
        requires room { length trace.old < TRACE_ROOM }
        ensures called { OnOk result (grips_of self.new ≡ called (grips_of self.old) (lock_of users call.now) call.now) }
        ensures traced { OnOk result (trace.new ≡ trace.old ++ step_in (grips_of self.old) (lock_of users call.now) call.now ∷ []) }
        ensures why { IfErr result (CanFault call.now) }
        ensures failed { IfErr result (λ fault. fault ≡ LevelFault.Store → HasFailed T.faults_before B.faults self.new.pages) }
    {
        match level {
            Level::L13 => make_one(alloc, users, call, trace, &mut self.codes),
            Level::L12 => make_one(alloc, users, call, trace, &mut self.mailbox),
            Level::L11 => make_one(alloc, users, call, trace, &mut self.life),
            Level::L10 => make_one(alloc, users, call, trace, &mut self.dirs),
            Level::L9 => make_one(alloc, users, call, trace, &mut self.types),
            Level::L8 => make_one(alloc, users, call, trace, &mut self.segs),
            Level::L7 => make_one(alloc, users, call, trace, &mut self.pages),
            Level::L0 => make_one(alloc, users, call, trace, &mut self.issuer),
        }
    }

    /// All members behind the locks have the entries that name them. Nothing changes.
    pub fn meet(&mut self, book: &mut Book<T>)
        ensures book { book.new ≡ book.old }
        ensures same { self.new ≡ self.old }
        ensures met { HaveMet book.old.entries (grips_of self.old) }
    {
        meet_one(book, &mut self.codes);
        meet_one(book, &mut self.mailbox);
        meet_one(book, &mut self.life);
        meet_one(book, &mut self.dirs);
        meet_one(book, &mut self.types);
        meet_one(book, &mut self.segs);
        meet_one(book, &mut self.pages);
        meet_one(book, &mut self.issuer);
    }

    /// The bits of a user and of the members behind all these locks.
    pub(crate) fn names(&self, user: u8) -> u64
        requires script { IsWellFormed T.script }
        requires user { user < 24 }
        ensures { result ≡ bits_for user (grips_of self.now) }
    {
        let names = name_one(1 << user, &self.codes);
        let names = name_one(names, &self.mailbox);
        let names = name_one(names, &self.life);
        let names = name_one(names, &self.dirs);
        let names = name_one(names, &self.types);
        let names = name_one(names, &self.segs);
        let names = name_one(names, &self.pages);
        name_one(names, &self.issuer)
    }

    /// Enters the entry of the open pen, which names a user and these locks, into all their members; none of them is
    /// broken any more, and the pen has still to be entered for the user.
    pub(crate) fn settle(&mut self, journal: &mut Journal<T, Entry>, pen: &mut Pen<T>)
        requires pen { journal.old.left ≡ Some pen.old }
        requires ready { MaySettle T.script journal.old.entries (slots_of self.old) pen.old }
        ensures journal { journal.new ≡ record journal.old { left = Some pen.new } }
        ensures pen { pen.new ≡ left_by (slots_of self.old) pen.old }
    {
        settle_one(journal, pen, &mut self.issuer);
        settle_one(journal, pen, &mut self.pages);
        settle_one(journal, pen, &mut self.segs);
        settle_one(journal, pen, &mut self.types);
        settle_one(journal, pen, &mut self.dirs);
        settle_one(journal, pen, &mut self.life);
        settle_one(journal, pen, &mut self.mailbox);
        settle_one(journal, pen, &mut self.codes);
    }

    /// A fault of the store, in a call under the lock of level 7, is counted on both sides of the ledger.
    pub(crate) fn count(&mut self, share: &mut Share<FaultsOf<T>>)
        requires failed { HasFailed T.faults_before B.faults self.old.pages }
        requires one { share.old.parts ≡ 1 }
        ensures parts { share.new.parts ≡ share.old.parts }
        ensures counted { 0 < share.new.amount }
    {
        match &mut self.pages {
            Some(held) => held.count_fault(share),
            None => unreachable!(),
        }
    }
}

// Whether a mailbox is held that a call is of.
fn is_box<'a, T: Run>(
    place: &Option<MutexGuard<'a, Held<T, Mailbox>>>,
    users: u8,
    call: &LevelCall,
) -> bool
    requires users { users ≡ length T.script.users }
    requires level { level_of call.now ≡ Level.L12 }
    ensures { result ≡ holds_in (lock_of users call.now) (option_map box_grip place.now) }
{
    match place {
        Some(held) => held.has_part(users, call),
        None => false,
    }
}
