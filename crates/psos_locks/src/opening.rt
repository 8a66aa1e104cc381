// How a run of threads begins.
ghost use Rattle.std.specs.Prelude.{◌≡◌, ◌+◌, ◌≤◌, [], None, length, replicate, slice_get, vec_len, vec_capacity, Some, IfOk, OnOk, IfSome, IfNone};
ghost use Rattle.arrayvec.specs.ArrayVec.{array_vec_len};
ghost use Rattle.psos_calls.specs.Language.Script.{IsWellFormed};
ghost use Rattle.psos_model.specs.Replay.{boot_system};
ghost use Rattle.psos_journal.specs.Views.{new_side};
ghost use Rattle.psos_core.specs.System.{system_of};
ghost use Rattle.psos_histories.specs.Names.{member_of, members_for};
ghost use Rattle.psos_locks.specs.Ends.{IsGroundFor};
ghost use Rattle.psos_locks.specs.Opening.{AreBootBoxes, AreFirstParts, AreInOrder, AreNewWith, IsAtBoot, IsBootBox};
ghost use Rattle.psos_locks.specs.Users.{new_user, AreNewUsers};

use crate::book::Book;
use crate::counted_pages::CountedPages;
use crate::held::Held;
use crate::locks::Locks;
use crate::own::Own;
use crate::part::Part;
use crate::run::Run;
use crate::user::UserState;
use arrayvec::ArrayVec;
use psos_calls::{Entry, Private, Script, Trace};
use psos_core::Levels;
use psos_io::Store;
use psos_journal::{FaultsOf, Ground, Journal, Member, Receipt, Tally};
use psos_procs::Mailbox;
use std::alloc::{AllocError, Global};
use std::sync::{Mutex, ledger};

// A lock over what lies under it at boot. Its member is the last of these.
fn new_lock<T: Run, K: Part>(state: K, members: &mut Vec<Member<T, Entry>>) -> Mutex<Held<T, K>>
    requires fits { K.fits state (length T.script.users) }
    requires at_boot { IsAtBoot T.script (K.lock state) (K.piece state) }
    requires order { AreInOrder members.old.items }
    requires last { vec_len members.old ≡ member_of (length T.script.users) (K.lock state) + 1 }
    ensures order { AreInOrder members.new.items }
    ensures rest { vec_len members.new ≡ member_of (length T.script.users) (K.lock state) }
{
    match members.pop() {
        Some(member) => Mutex::new(Held::new(state, member)),
        None => unreachable!(),
    }
}

// Takes the last of the mailboxes at boot.
fn last_box<T: Run>(boxes: &mut Vec<Mailbox>) -> Option<Mailbox>
    requires { AreBootBoxes T.script boxes.old.items }
    ensures boxes { AreBootBoxes T.script boxes.new.items }
    ensures last { IfSome result (λ b. IsBootBox T.script (vec_len boxes.new) b) }
    ensures count { IfSome result (λ b. vec_len boxes.new + 1 ≡ vec_len boxes.old) }
    ensures none { IfNone result (vec_len boxes.old ≡ 0) }
{
    boxes.pop()
}

// Puts the mailboxes at boot behind their locks, in the order of users. Their members are the last of these.
fn lock_boxes<T: Run>(
    boxes: &mut Vec<Mailbox>,
    members: &mut Vec<Member<T, Entry>>,
    locks: &mut Vec<Mutex<Held<T, Mailbox>>>,
)
    requires boxes { AreBootBoxes T.script boxes.old.items }
    requires order { AreInOrder members.old.items }
    requires last { vec_len members.old ≡ length T.script.users + 7 + vec_len boxes.old }
    requires room { vec_len locks.old + vec_len boxes.old ≤ vec_capacity locks.old }
    ensures order { AreInOrder members.new.items }
    ensures rest { vec_len members.new ≡ length T.script.users + 7 }
    ensures count { vec_len locks.new ≡ vec_len locks.old + vec_len boxes.old }
    ensures room { vec_capacity locks.new ≡ vec_capacity locks.old }
{
    let Some(mailbox) = last_box::<T>(boxes) else {
        return;
    };
    let lock = new_lock(mailbox, members);
    lock_boxes(boxes, members, locks);
    locks.push_reserved(lock);
}

// Room for what a user knows of all users, and for the calls of its requests: there is none of either yet.
#[derive(Drop)]
pub(crate) struct Room<T: Run> {
    receipts: Vec<Option<Receipt<T, Entry>>>,
    trace: Trace,
    ghost empty: { (receipts.items ≡ replicate (length T.script.users) None) × (trace ≡ []) },
}

// What a user knows of so many users before the first entry: nothing.
fn no_receipts<T: Run>(
    alloc: Global,
    users: usize,
) -> Result<Vec<Option<Receipt<T, Entry>>>, AllocError>
    ensures { IfOk result (λ v. v.items ≡ replicate users None) }
{
    let mut receipts = Vec::with_capacity(alloc, users)?;
    'users: for _number in 0..users {
        receipts.push_reserved(None);
    }
    Ok(receipts)
}

// Room for one of so many users.
fn new_room<T: Run>(alloc: Global, users: usize) -> Result<Room<T>, AllocError>
    requires { users ≡ length T.script.users }
{
    Ok(Room {
        receipts: no_receipts(alloc, users)?,
        trace: Trace::new(alloc)?,
    })
}

// Room for so many users.
fn new_rooms<T: Run>(alloc: Global, users: usize) -> Result<Vec<Room<T>>, AllocError>
    requires { users ≡ length T.script.users }
    ensures { IfOk result (λ v. vec_len v ≡ users) }
{
    let mut rooms = Vec::with_capacity(alloc, users)?;
    'users: for _number in 0..users {
        rooms.push_reserved(new_room(alloc, users)?);
    }
    Ok(rooms)
}

// A user with its own part at boot.
fn first_user<T: Run>(private: Private, member: Member<T, Entry>, room: Room<T>) -> UserState<T>
    requires member { member ≡ new_side member.number }
    requires here { slice_get (boot_system T.script).users member.number ≡ Some private }
    ensures { result ≡ new_user (length T.script.users) member.number private }
{
    let Room { receipts, trace } = room;
    let own = Own {
        private,
        member,
        phase: 0,
        receipts,
        trace,
    };
    UserState {
        own,
        halted: false,
        served: 0,
    }
}

/// The first users, with these own parts at boot and these members (docs/levels.md, "Phases").
fn first_users<T: Run>(
    privates: &mut ArrayVec<Private, 8>,
    members: &mut Vec<Member<T, Entry>>,
    rooms: &mut Vec<Room<T>>,
    users: &mut Vec<UserState<T>>,
)
    requires parts { AreFirstParts T.script privates.old.items }
    requires order { AreInOrder members.old.items }
    requires last { vec_len members.old ≡ array_vec_len privates.old }
    requires rooms { vec_len rooms.old ≡ array_vec_len privates.old }
    requires none { users.old.items ≡ [] }
    requires room { array_vec_len privates.old ≤ vec_capacity users.old }
    ensures users { AreNewWith (length T.script.users) privates.old.items users.new.items }
    ensures room { vec_capacity users.new ≡ vec_capacity users.old }
{
    let Some(private) = privates.pop() else {
        return;
    };
    let Some(member) = members.pop() else {
        unreachable!();
    };
    let Some(room) = rooms.pop() else {
        unreachable!();
    };
    first_users(privates, members, rooms, users);
    users.push_reserved(first_user(private, member, room));
}

// What a run begins with beside the levels: the journal, its members and the ledger of store faults, before the first
// entry; and room for what users know, for their locks and for the users themselves.
#[derive(Drop)]
struct Start<T: Run> {
    book: Book<T>,
    members: Vec<Member<T, Entry>>,
    faults: ledger::Book<FaultsOf<T>>,
    rooms: Vec<Room<T>>,
    boxes: Vec<Mutex<Held<T, Mailbox>>>,
    users: Vec<UserState<T>>,
    ghost order: { AreInOrder members.items },
    ghost all: { vec_len members ≡ members_for (length T.script.users) },
    ghost none: { faults.total ≡ 0 },
    ghost rooms_all: { vec_len rooms ≡ length T.script.users },
    ghost boxes_none: { vec_len boxes ≡ 0 },
    ghost boxes_room: { vec_capacity boxes ≡ length T.script.users },
    ghost users_none: { users.items ≡ [] },
    ghost users_room: { vec_capacity users ≡ length T.script.users },
}

impl<T: Run> Start<T> {
    /// What a run of so many users begins with on this ground. `Err` only where memory runs out: the ground goes.
    fn new(alloc: Global, count: usize, ground: Ground<Entry>) -> Result<Start<T>, AllocError>
        requires count { count ≡ length T.script.users }
        requires ground { IsGroundFor T.script ground T.book T.counts T.told T.faults }
    {
        let rooms = new_rooms(alloc, count)?;
        let boxes = Vec::with_capacity(alloc, count)?;
        let users = Vec::with_capacity(alloc, count)?;
        let (journal, members, tally) = Journal::start(alloc, ground)?;
        let Tally {
            book: faults,
            share,
        } = tally;
        Ok(Start {
            book: Book::new(journal, share),
            members,
            faults,
            rooms,
            boxes,
            users,
        })
    }

    /// The locks and the users of a run from levels that were booted. It takes no memory.
    fn open<B: Store>(self, alloc: Global, levels: Levels<B>) -> (Locks<T, B>, Vec<UserState<T>>)
        requires well_formed { IsWellFormed T.script }
        requires booted { system_of levels ≡ boot_system T.script }
        requires store { B.faults levels.pages.store ≡ T.faults_before }
        ensures { AreNewUsers T.script result.1.items }
    {
        let Start {
            book,
            mut members,
            faults,
            mut rooms,
            mut boxes,
            mut users,
        } = self;
        let Levels {
            issuer,
            pages,
            segs,
            types,
            dirs,
            life,
            procs,
            codes,
            mut privates,
        } = levels;
        let Ok(mut mailboxes) = procs.split(alloc) else {
            unreachable!();
        };
        lock_boxes(&mut mailboxes, &mut members, &mut boxes);
        let issuer = new_lock(issuer, &mut members);
        let pages = new_lock(CountedPages::new(pages, faults), &mut members);
        let segs = new_lock(segs, &mut members);
        let types = new_lock(types, &mut members);
        let dirs = new_lock(dirs, &mut members);
        let life = new_lock(life, &mut members);
        let codes = new_lock(codes, &mut members);
        first_users(&mut privates, &mut members, &mut rooms, &mut users);
        let locks = Locks {
            codes,
            boxes,
            life,
            dirs,
            types,
            segs,
            pages,
            issuer,
            journal: Mutex::new(book),
            parts: privates,
        };
        (locks, users)
    }
}

impl<T: Run, B: Store> Locks<T, B> {
    /// The locks of a run and its users, in the order of the script, from levels that were booted, on this ground of a
    /// journal. No lock is broken, no user has an open body or knows of an entry, and all are in phase 0. The ground is
    /// for a member for each user and each lock, and is called as `T` says; the store beneath the levels has the count
    /// of faults that the run begins with (docs/levels.md, "Locks" and "Journal").
    ///
    /// `Err` only where memory runs out: the levels, the store and the ground go.
    pub fn new(
        alloc: Global,
        script: &Script,
        levels: Levels<B>,
        ground: Ground<Entry>,
    ) -> Result<(Locks<T, B>, Vec<UserState<T>>), AllocError>
        requires script { script.now ≡ T.script }
        requires well_formed { IsWellFormed T.script }
        requires booted { system_of levels ≡ boot_system T.script }
        requires store { B.faults levels.pages.store ≡ T.faults_before }
        requires ground { IsGroundFor T.script ground T.book T.counts T.told T.faults }
        ensures { IfOk result (λ r. AreNewUsers T.script r.1.items) }
    {
        let start = Start::<T>::new(alloc, script.users().len(), ground)?;
        Ok(start.open(alloc, levels))
    }
}
