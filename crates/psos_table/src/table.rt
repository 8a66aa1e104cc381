// A table: rows under numbers.
ghost use Rattle.std.specs.Prelude.{◌≡◌, ◌^◌, ◌<◌, OnOk, OnErr, None};
ghost use Rattle.std.specs.Option.{option_copied, option_copied_mut};
ghost use Rattle.std.specs.Borrow.{sem};
ghost use Rattle.std.specs.FinMap.{empty};
ghost use Rattle.psos_table.specs.Table.{at, put, without, kept, edit, has, size};
ghost use Rattle.psos_table.specs.Lends.{lends_row};

use super::change::Change;
use super::test::Test;
use std::alloc::{AllocError, Global};
use std::collections::BTreeMap;
use std::marker::Model;

/// Rows under numbers, as unique identifiers, seen as a finite map.
#[derive(Drop)]
pub struct Table<V> {
    rows: BTreeMap<u64, V>,
}

impl<V> Model for Table<V> {
    ghost use Rattle.std.specs.Ordering.{nat_cmp};
    ghost use Rattle.std.specs.FinMap as map;
    ghost use Rattle.std.specs.Coded.{coded_ℕ};

    ghost Value = { map.FinMap nat_cmp V };

    ghost coded = { map.code coded_ℕ V.code };

    ghost view = { λ a. map.from_entries a.rows.entries };
}

impl<V: Drop> Table<V> {
    /// No row. It takes no memory.
    pub fn new(alloc: Global) -> Self
        ensures { result ≡ empty }
    {
        Table {
            rows: BTreeMap::new(alloc),
        }
    }

    /// The row under a number, lent and not copied.
    pub fn get(&self, key: u64) -> Option<&V>
        ensures { option_copied result ≡ at self.now key }
    {
        self.rows.get(&key)
    }

    /// Whether there is a row under a number.
    pub fn has(&self, key: u64) -> bool
        ensures { result ≡ has self.now key }
    {
        self.rows.contains_key(&key)
    }

    /// Puts a row under a number, in the place of the row there. `Err` only where memory runs out, which only a new
    /// number takes; it drops the value and changes nothing.
    pub fn put(&mut self, key: u64, value: V) -> Result<(), AllocError>
        ensures ok { OnOk result (self.new ≡ put self.old key value) }
        ensures err { OnErr result (self.new ≡ self.old) }
        ensures absent { OnErr result (at self.old key ≡ None) }
    {
        self.rows.insert(key, value)?;
        Ok(())
    }

    /// Takes the row under a number out, and gives it back.
    pub fn remove(&mut self, key: u64) -> Option<V>
        ensures value { result ≡ at self.old key }
        ensures rest { self.new ≡ without self.old key }
    {
        self.rows.remove(&key)
    }

    /// How many rows there are.
    pub fn len(&self) -> usize
        ensures len { result ≡ size self.now }
        ensures small { size self.now < 2 ^ 63 }
    {
        self.rows.len()
    }

    /// Keeps the rows that pass, and drops the others.
    pub fn keep<T: Test<V>>(&mut self, test: &T)
        ensures { self.new ≡ kept (T.test test.now) self.old }
    {
        self.rows.retain(|_, row| test.passes(row));
    }

    /// The row under a number, lent to be changed in its place.
    pub fn get_mut(&mut self, key: u64) -> Option<&mut V>
        ensures* writes_back { sem 𝓛 (lends_row V.row self.entry key result) }
        ensures value { option_copied_mut result ≡ at self.old key }
    {
        self.rows.get_mut(&key)
    }

    /// Changes the row under a number in its place, where there is one. It takes no memory.
    pub fn edit<C: Change<V>>(&mut self, key: u64, change: &C)
        ensures { self.new ≡ edit self.old key (C.change change.now) }
    {
        if let Some(row) = self.get_mut(key) {
            change.apply(row);
        }
    }
}
