// The entries of a run.
ghost use Rattle.std.specs.Prelude.{◌≡◌, ◌+◌, ◌<◌, ◌^◌, [], ◌∷◌, ◌++◌, length, OnOk, OnErr, IfErr, slice_get, Some};

use std::alloc::Global;
use std::marker::Model;

/// Entries in order, seen as their list. It only grows, and holds fewer than 2^32.
#[derive(Drop)]
pub struct Entries<E> {
    pub(crate) items: Vec<E>,
}

impl<E> Model for Entries<E> {
    ghost use Rattle.std.specs.Prelude.{List, length, ◌<◌, ◌^◌};
    ghost use Rattle.std.specs.Coded.{coded_list};

    ghost Value = { List E };

    ghost coded = { coded_list E.code };

    ghost view = { λ e. e.items.items };

    ghost invariant = { λ e. length e.items.items < 2 ^ 32 };
}

impl<E> Entries<E> {
    /// No entry. It takes no memory.
    pub fn empty(alloc: Global) -> Entries<E>
        ensures { result ≡ [] }
    {
        Entries {
            items: Vec::new(alloc),
        }
    }

    /// One more entry at the end. `Err` only where memory runs out: it has the entry, and the entries are unchanged.
    pub fn push(&mut self, entry: E) -> Result<(), E>
        requires { length self.old + 1 < 2 ^ 32 }
        ensures ok { OnOk result (self.new ≡ self.old ++ entry ∷ []) }
        ensures err { OnErr result (self.new ≡ self.old) }
        ensures returned { IfErr result (λ e. e ≡ entry) }
    {
        match self.items.push(entry) {
            Ok(()) => Ok(()),
            Err(refused) => Err(refused.value),
        }
    }

    /// How many there are.
    pub fn len(&self) -> u32
        ensures { result ≡ length self.now }
    {
        self.items.len() as u32
    }

    /// The entry at a place.
    pub fn get(&self, i: u32) -> &E
        requires { i < length self.now }
        ensures { slice_get self.now i ≡ Some result.now }
    {
        &self.items[i as usize]
    }

    /// All of them, in order.
    pub fn as_slice(&self) -> &[E]
        ensures items { result.now ≡ self.now }
        ensures few { length self.now < 2 ^ 32 }
    {
        self.items.as_slice()
    }
}
