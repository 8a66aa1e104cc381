// The locks of a run.
ghost use Rattle.std.specs.Prelude.{◌≡◌, true, false, [], length, IfSome, IsTrue};
ghost use Rattle.std.specs.Sync.Mutex.{mutex_guard_value};
ghost use Rattle.psos_calls.specs.Levels.{level_of};
ghost use Rattle.psos_calls.specs.Locks.{part_of, lock_of};
ghost use Rattle.psos_calls.specs.Locks.Held.{are_earlier};
ghost use Rattle.psos_journal.specs.Views.{list_of};
ghost use Rattle.psos_histories.specs.Grips.{locks_of};
ghost use Rattle.psos_locks.specs.Grips.{box_grip, grip_by, grips_of, IsPut, IsTaken};
ghost use Rattle.psos_locks.specs.Runs.{HasLooked};

use crate::book::Book;
use crate::counted_pages::CountedPages;
use crate::hands::Hands;
use crate::held::Held;
use crate::part::Part;
use crate::run::Run;
use arrayvec::ArrayVec;
use psos_calls::{Entry, Level, LevelCall, Private, part_of};
use psos_caps::Issuer;
use psos_codes::Codes;
use psos_dirs::Dirs;
use psos_io::Store;
use psos_journal::Member;
use psos_life::Life;
use psos_procs::Mailbox;
use psos_segs::Segs;
use psos_types::Types;
use std::sync::{Mutex, MutexGuard, Wait};

/// The locks of a run: one for each level but 12, one for each mailbox, and that of the journal, which is taken last.
/// Beside them lies the room into which the users' own parts go at the end.
#[derive(Drop)]
pub struct Locks<T: Run, B: Store> {
    pub(crate) codes: Mutex<Held<T, Codes>>,
    pub(crate) boxes: Vec<Mutex<Held<T, Mailbox>>>,
    pub(crate) life: Mutex<Held<T, Life>>,
    pub(crate) dirs: Mutex<Held<T, Dirs>>,
    pub(crate) types: Mutex<Held<T, Types>>,
    pub(crate) segs: Mutex<Held<T, Segs>>,
    pub(crate) pages: Mutex<Held<T, CountedPages<T, B>>>,
    pub(crate) issuer: Mutex<Held<T, Issuer>>,
    pub(crate) journal: Mutex<Book<T>>,
    pub(crate) parts: Box<ArrayVec<Private, 8>>,
}

// Takes a lock, and holds it at its place. False where it is broken: it is free again, and the place is as it was.
fn take_one<'a, T: Run, K: Part, R: Wait>(
    rt: &R,
    lock: &'a Mutex<Held<T, K>>,
    place: &mut Option<MutexGuard<'a, Held<T, K>>>,
) -> bool
    ensures taken { result ≡ true → IsPut T.script (grip_by (λ s. K.lock s) (λ s. K.piece s)) place.new }
    ensures broken { result ≡ false → place.new ≡ place.old }
{
    let held = lock.lock(rt);
    if held.is_broken() {
        return false;
    }
    *place = Some(held);
    true
}

// Takes the mailbox of a call, which is one of these. It is the one at the place of the call's part, which is looked at
// once more, since no type says at which place a lock stands.
fn take_box<'a, T: Run, R: Wait>(
    rt: &R,
    boxes: &'a [Mutex<Held<T, Mailbox>>],
    users: u8,
    call: &LevelCall,
    place: &mut Option<MutexGuard<'a, Held<T, Mailbox>>>,
) -> bool
    requires users { users ≡ length T.script.users }
    ensures taken { result ≡ true → IsPut T.script box_grip place.new }
    ensures part { result ≡ true → IfSome place.new (λ g. (mutex_guard_value g).0.number ≡ part_of users call.now) }
    ensures broken { result ≡ false → place.new ≡ place.old }
{
    let part = part_of(users, call) as usize;
    if part >= boxes.len() {
        return false;
    }
    let held = boxes[part].lock(rt);
    if held.is_broken() || !held.has_part(users, call) {
        return false;
    }
    *place = Some(held);
    true
}

impl<T: Run, B: Store> Locks<T, B> {
    /// Takes the lock of a call, which is of a later level than all that the request holds. False where it is broken: it
    /// is free again, and the request holds what it held.
    pub fn take<'a, R: Wait>(
        &'a self,
        rt: &R,
        hands: &mut Hands<'a, T, B>,
        users: u8,
        level: Level,
        call: &LevelCall,
    ) -> bool
        requires users { users ≡ length T.script.users }
        requires level { level_of call.now ≡ level }
        requires later { IsTrue (are_earlier (locks_of (grips_of hands.old)) (lock_of users call.now)) }
        ensures taken { result ≡ true → IsTaken T.script (lock_of users call.now) (grips_of hands.old) (grips_of hands.new) }
        ensures broken { result ≡ false → hands.new ≡ hands.old }
    {
        match level {
            Level::L13 => take_one(rt, &self.codes, &mut hands.codes),
            Level::L12 => take_box(rt, &self.boxes, users, call, &mut hands.mailbox),
            Level::L11 => take_one(rt, &self.life, &mut hands.life),
            Level::L10 => take_one(rt, &self.dirs, &mut hands.dirs),
            Level::L9 => take_one(rt, &self.types, &mut hands.types),
            Level::L8 => take_one(rt, &self.segs, &mut hands.segs),
            Level::L7 => take_one(rt, &self.pages, &mut hands.pages),
            Level::L0 => take_one(rt, &self.issuer, &mut hands.issuer),
        }
    }
}

/// A look at the journal: the user's member and those of all locks that it holds have met the same entries, which are
/// of a run. Nothing changes.
pub fn look<'a, T: Run, B: Store, R: Wait>(
    rt: &R,
    journal: &Mutex<Book<T>>,
    member: &mut Member<T, Entry>,
    hands: &mut Hands<'a, T, B>,
)
    requires latest { list_of member.old ≡ [] → member.old.past ≡ [] }
    ensures member { member.new ≡ member.old }
    ensures hands { hands.new ≡ hands.old }
    ensures looked { HasLooked T.script member.old (grips_of hands.old) }
{
    let mut guard = journal.lock(rt);
    let book = &mut *guard;
    book.know(member);
    hands.meet(book);
}
