// How a run of threads ends.
ghost use Rattle.std.specs.Prelude.{◌≡◌, [], ◌∷◌, ◌++◌, None, Some, true, false, map, length, vec_len, ◌≤◌, IfSome};
ghost use Rattle.psos_calls.specs.Language.Script.{IsWellFormed};
ghost use Rattle.psos_calls.specs.declared.level.Level.TheVariants.{L12};
ghost use Rattle.psos_histories.specs.Pieces.{Box};
ghost use Rattle.psos_locks.specs.Ending.{AreBoxesLeft, HasMetAll, HaveEndedIn, IsBoxOf, IsLeft, IsProcsLeft, MayHaveStopped};
ghost use Rattle.psos_locks.specs.Ends.{CountsFaults, HasEnded, IsGiven};
ghost use Rattle.psos_locks.specs.Users.{AreUsers};

use crate::book::Book;
use crate::held::Held;
use crate::left::Left;
use crate::locks::Locks;
use crate::own::Own;
use crate::part::Part;
use crate::run::Run;
use crate::user::UserState;
use arrayvec::ArrayVec;
use psos_calls::Private;
use psos_core::Parts;
use psos_io::Store;
use psos_journal::StopCause;
use psos_procs::{Mailbox, Procs};
use std::alloc::Global;
use std::sync::Mutex;

// ---- locks

// What lies under a lock, whose member meets the journal. Where the lock is broken, the run is stopped.
fn end_lock<T: Run, K: Part>(book: &mut Book<T>, lock: Mutex<Held<T, K>>) -> K
    ensures book { MayHaveStopped book.old book.new }
    ensures fits { K.fits result (length T.script.users) }
    ensures left { book.new.stopped ≡ None → IsLeft T.script book.old.entries (K.lock result) (K.piece result) }
{
    let mut held = lock.into_inner();
    book.meet(&mut held);
    if held.is_broken() {
        book.give_up();
    }
    held.into_state()
}

// One more mailbox at the end. Where memory runs out, the run is stopped.
fn add_box<T: Run>(book: &mut Book<T>, boxes: &mut Vec<Mailbox>, mailbox: Mailbox)
    ensures book { MayHaveStopped book.old book.new }
    ensures added { book.new.stopped ≡ None → boxes.new.items ≡ boxes.old.items ++ mailbox ∷ [] }
{
    match boxes.push(mailbox) {
        Ok(()) => {}
        Err(_) => book.give_up(),
    }
}

// The mailboxes of the first users, in order, behind none.
fn end_boxes<T: Run>(
    book: &mut Book<T>,
    locks: &mut Vec<Mutex<Held<T, Mailbox>>>,
    boxes: &mut Vec<Mailbox>,
)
    requires none { boxes.old.items ≡ [] }
    ensures book { MayHaveStopped book.old book.new }
    ensures left { book.new.stopped ≡ None → AreBoxesLeft T.script book.old.entries (vec_len locks.old) boxes.new.items }
{
    let Some(lock) = locks.pop() else {
        return;
    };
    let mailbox = end_box(book, lock, locks.len());
    end_boxes(book, locks, boxes);
    add_box(book, boxes, mailbox);
}

// The mailbox that lies under a lock. It has to be that of this user, which is looked at once more, since no type says
// at which place a lock stands; else the run is stopped.
fn end_box<T: Run>(book: &mut Book<T>, lock: Mutex<Held<T, Mailbox>>, user: usize) -> Mailbox
    ensures book { MayHaveStopped book.old book.new }
    ensures is { book.new.stopped ≡ None → IsBoxOf T.script user result }
    ensures left { book.new.stopped ≡ None → IsLeft T.script book.old.entries (record { level = L12; part = user }) (Box user (Some result.words)) }
{
    let mailbox = end_lock(book, lock);
    if mailbox.number() as usize != user {
        book.give_up();
    }
    mailbox
}

// Level 12 from the locks of so many users. None only where the run is stopped.
fn end_procs<T: Run>(
    book: &mut Book<T>,
    alloc: Global,
    mut locks: Vec<Mutex<Held<T, Mailbox>>>,
    users: usize,
) -> Option<Procs>
    requires well_formed { IsWellFormed T.script }
    requires users { users ≡ length T.script.users }
    ensures book { MayHaveStopped book.old book.new }
    ensures some { book.new.stopped ≡ None → result ≡ None → ⊥ }
    ensures left { IfSome result (λ procs. IsProcsLeft T.script book.old.entries procs) }
{
    let mut boxes = Vec::new(alloc);
    end_boxes(book, &mut locks, &mut boxes);
    if boxes.len() != users {
        book.give_up();
        return None;
    }
    if book.is_stopped() {
        return None;
    }
    Some(Procs::join(boxes))
}

// ---- users

// A user's own part. Its member meets the journal, and where the user is halted, the run is stopped.
fn end_user<T: Run>(book: &mut Book<T>, user: UserState<T>) -> Private
    ensures book { MayHaveStopped book.old book.new }
    ensures met { HasMetAll T.script book.old.entries user }
    ensures told { user.who.side.told ≡ true → book.new.stopped ≡ Some StopCause.Store }
    ensures going { book.new.stopped ≡ None → user.halted ≡ false }
    ensures own { result ≡ user.who.own }
{
    let UserState {
        own,
        halted,
        served: _,
    } = user;
    let private = own.end(book);
    if halted {
        book.give_up();
    }
    private
}

// The own parts of the first users, in order, behind none.
fn end_users<T: Run>(
    book: &mut Book<T>,
    users: &mut Vec<UserState<T>>,
    privates: &mut ArrayVec<Private, 8>,
)
    requires none { privates.old.items ≡ [] }
    requires few { vec_len users.old ≤ 8 }
    ensures book { MayHaveStopped book.old book.new }
    ensures ended { HaveEndedIn T.script book.old.entries book.new.stopped users.old.items }
    ensures parts { privates.new.items ≡ map (λ u. u.who.own) users.old.items }
{
    let Some(user) = users.pop() else {
        return;
    };
    let private = end_user(book, user);
    end_users(book, users, privates);
    privates.push(private);
}

// ---- all

impl<T: Run, B: Store> Locks<T, B> {
    /// What a run of threads leaves, when all its threads are done: these are all its users. It was stopped for the
    /// journal's first cause; or, where there is none, for want of memory, where a user is halted, a lock is broken, or
    /// the list of mailboxes finds no memory. The entries are given without a copy, and the levels' states where it was
    /// not stopped; else the store is (docs/levels.md, "Locks" and "Journal").
    pub fn into_parts(self, alloc: Global, mut users: Vec<UserState<T>>) -> Parts<B>
        requires well_formed { IsWellFormed T.script }
        requires users { AreUsers T.script users.items }
        ensures ended { HasEnded T.script users.items result }
        ensures given { IsGiven B.faults result.stopped result.levels result.store result.store_faults }
        ensures counted { CountsFaults T.faults_before result.store_faults result.stopped }
    {
        let Locks {
            codes,
            boxes,
            life,
            dirs,
            types,
            segs,
            pages,
            issuer,
            journal,
            mut parts,
        } = self;
        let mut book = journal.into_inner();
        let count = users.len();
        parts.clear();
        end_users(&mut book, &mut users, &mut parts);
        let procs = end_procs(&mut book, alloc, boxes, count);
        let codes = end_lock(&mut book, codes);
        let life = end_lock(&mut book, life);
        let dirs = end_lock(&mut book, dirs);
        let types = end_lock(&mut book, types);
        let segs = end_lock(&mut book, segs);
        let pages = end_lock(&mut book, pages);
        let issuer = end_lock(&mut book, issuer);
        let (entries, stopped, mut faults) = book.end(alloc);
        let left = Left {
            codes,
            life,
            dirs,
            types,
            segs,
            pages: pages.end(&mut faults),
            issuer,
            parts,
        };
        left.into_parts(procs, entries, stopped)
    }
}
