// What a request changes of what users share.
ghost use Rattle.std.specs.Prelude.{◌≡◌, ◌≤◌, [], ◌∷◌, true};
ghost use Rattle.psos_model.specs.declared.change.Change.TheVariants.{Fresh, Register};
ghost use Rattle.psos_model.specs.Flat.Safe.{is_safe, is_sure, is_making, used_by};

use crate::Change;
use arrayvec::ArrayVec;
use psos_calls::Kind;
use psos_text::Name;
use std::marker::Model;

/// The changes of one request, in order. They are seen as their list, which is safe: no change after the first can
/// want memory, but a `Register` straight after a making. They use up at most two identifiers.
#[derive(Drop)]
pub struct ChangeList {
    list: ArrayVec<Change, 4>,
}

impl Model for ChangeList {
    ghost use Rattle.std.specs.Prelude.{List, ◌≡◌, ◌≤◌, true};
    ghost use Rattle.psos_model.specs.declared.change.Change.{Change};
    ghost use Rattle.psos_model.specs.Flat.Safe.{is_safe, used_by};

    ghost Value = { List Change };

    ghost view = { λ c. c.list.items };

    ghost invariant = { λ c. (is_safe c.list.items ≡ true) × (used_by c.list.items ≤ 2) };
}

impl ChangeList {
    /// No change.
    pub fn none() -> ChangeList
        ensures { result ≡ [] }
    {
        ChangeList {
            list: ArrayVec::new(),
        }
    }

    /// One change.
    pub fn one(change: Change) -> ChangeList
        ensures { result ≡ change ∷ [] }
    {
        let mut list = ArrayVec::new();
        list.push(change);
        ChangeList { list }
    }

    /// A change, and one that takes no memory.
    pub fn two(change: Change, sure: Change) -> ChangeList
        requires { is_sure sure ≡ true }
        ensures { result ≡ change ∷ sure ∷ [] }
    {
        let mut list = ArrayVec::new();
        list.push(change);
        list.push(sure);
        ChangeList { list }
    }

    /// What makes a user object, its distinguished entry, and its identifier.
    pub fn made(making: Change, uid: u64, dir: u64, name: Name, kind: Kind) -> ChangeList
        requires { is_making making ≡ true }
        ensures { result ≡ making ∷ Register uid dir name kind ∷ Fresh ∷ [] }
    {
        let mut list = ArrayVec::new();
        list.push(making);
        list.push(Change::Register {
            uid,
            dir,
            name,
            kind,
        });
        list.push(Change::Fresh);
        ChangeList { list }
    }

    /// What makes a user object with a representation, its distinguished entry, and the two identifiers.
    pub fn made_two(making: Change, uid: u64, dir: u64, name: Name, kind: Kind) -> ChangeList
        requires { is_making making ≡ true }
        ensures { result ≡ making ∷ Register uid dir name kind ∷ Fresh ∷ Fresh ∷ [] }
    {
        let mut made = ChangeList::made(making, uid, dir, name, kind);
        made.list.push(Change::Fresh);
        made
    }

    /// All of them, in order.
    pub fn as_slice(&self) -> &[Change]
        ensures list { result.now ≡ self.now }
        ensures safe { is_safe result.now ≡ true }
        ensures few { used_by result.now ≤ 2 }
    {
        self.list.as_slice()
    }
}
