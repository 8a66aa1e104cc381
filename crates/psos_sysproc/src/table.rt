// The locks that all users hold.
ghost use Rattle.std.specs.Prelude.{◌≡◌, ◌||◌, ℕ, ◌<◌, [], is_none, length, replicate, slice_index_or, None, IfOk, IsTrue};
ghost use Rattle.psos_calls.specs.Locks.Held.{is_lock, is_held, is_free, are_earlier};
ghost use Rattle.psos_sysproc.specs.declared.want.Want.TheVariants.{Call, Take};
ghost use Rattle.psos_sysproc.specs.Owners.{is_owner, without_user};
ghost use Rattle.psos_sysproc.specs.Wants.{is_known, is_enabled, taken, released};

use crate::Want;
use crate::place::{place, rank};
use psos_calls::LockId;
use std::alloc::{AllocError, Global};
use std::marker::Model;

/// The locks that each user holds (docs/levels.md, "Locks"). They are seen as a list of lists, in the order of the
/// users; the last lock that a user took stands first in its own.
#[derive(Drop)]
pub struct Table {
    // Who holds each lock.
    owners: Vec<Option<u8>>,
    // The rank of the lock that each user took last, and 14 where it holds none.
    lowest: Vec<u8>,
}

impl Model for Table {
    ghost use Rattle.std.specs.Prelude.{List, ◌<◌, length};
    ghost use Rattle.psos_calls.specs.declared.lock_id.LockId.{LockId};
    ghost use Rattle.psos_sysproc.specs.Owners.{holdings, IsTable};

    ghost Value = { List (List LockId) };

    ghost view = { λ t. holdings (length t.lowest.items) t.owners.items };

    ghost invariant = { λ t. (length t.lowest.items < 256) × IsTable t.owners.items t.lowest.items };
}

impl Table {
    /// So many users, who hold nothing. `Err` only where memory runs out.
    pub fn new(alloc: Global, users: u8) -> Result<Table, AllocError>
        ensures { IfOk result (λ table. table ≡ replicate users []) }
    {
        let mut owners = Vec::with_capacity(alloc, 7 + users as usize)?;
        owners.resize(7 + users as usize, None)?;
        let mut lowest = Vec::with_capacity(alloc, users as usize)?;
        lowest.resize(users as usize, 14)?;
        Ok(Table { owners, lowest })
    }

    /// Whether a user may do what it wants. A take is enabled exactly where nobody holds the lock and the user holds
    /// only locks of levels earlier in the falling order; a call exactly where the user holds the lock; a close always.
    /// The lock is one of these users': of part 0 at each level but 12, and at level 12 of a part below their number.
    pub fn enabled(&self, user: u8, want: Want) -> bool
        requires user { user < length self.now }
        requires lock { IsTrue (is_known (length self.now) want) }
        ensures { result ≡ is_enabled self.now user want }
    {
        match want {
            Want::Take(lock) => self.owner(lock).is_none() && self.are_earlier(user, lock),
            Want::Call(lock) => is_user(self.owner(lock), user),
            Want::Close => true,
        }
    }

    /// Whether a user holds a lock or may take it: what `enabled` says of a call under it, or of the take.
    pub fn may_hold(&self, user: u8, lock: LockId) -> bool
        requires user { user < length self.now }
        requires lock { IsTrue (is_lock (length self.now) lock) }
        ensures { result ≡ (is_enabled self.now user (Call lock) || is_enabled self.now user (Take lock)) }
    {
        match self.owner(lock) {
            Some(owner) => owner == user,
            None => self.are_earlier(user, lock),
        }
    }

    // Who holds a lock.
    fn owner(&self, lock: LockId) -> Option<u8>
        requires { IsTrue (is_lock (length self.now) lock) }
        ensures held { (user : ℕ) → user < length self.now → is_owner user result ≡ is_held (slice_index_or self.now user []) lock }
        ensures free { is_none result ≡ is_free self.now lock }
    {
        self.owners[place(self.lowest.len(), lock)]
    }

    // Whether all that a user holds is of levels earlier than a lock's: it is enough to look at what it took last.
    fn are_earlier(&self, user: u8, lock: LockId) -> bool
        requires { user < length self.now }
        ensures { result ≡ are_earlier (slice_index_or self.now user []) lock }
    {
        rank(lock.level) < self.lowest[user as usize]
    }

    /// The user holds the lock from now on. It may take it (`enabled`).
    pub fn take(&mut self, user: u8, lock: LockId)
        requires user { user < length self.old }
        requires lock { IsTrue (is_lock (length self.old) lock) }
        requires enabled { IsTrue (is_enabled self.old user (Take lock)) }
        ensures held { self.new ≡ taken self.old user lock }
        ensures users { length self.new ≡ length self.old }
    {
        let at = place(self.lowest.len(), lock);
        self.owners[at] = Some(user);
        self.lowest[user as usize] = rank(lock.level);
    }

    /// All locks of the user become free, and no other.
    pub fn release(&mut self, user: u8)
        requires { user < length self.old }
        ensures held { self.new ≡ released self.old user }
        ensures users { length self.new ≡ length self.old }
    {
        free_all(&mut self.owners, user);
        self.lowest[user as usize] = 14;
    }
}

// Whether this is the user.
fn is_user(owner: Option<u8>, user: u8) -> bool
    ensures { result ≡ is_owner user owner }
{
    match owner {
        Some(other) => other == user,
        None => false,
    }
}

// What the user held is held by nobody.
fn free_all(owners: &mut [Option<u8>], user: u8)
    ensures { owners.new ≡ without_user user owners.old }
{
    'locks: for i in 0..owners.len() {
        if is_user(owners[i], user) {
            owners[i] = None;
        }
    }
}
