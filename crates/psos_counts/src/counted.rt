// A table whose rows are counted by class.
ghost use Rattle.std.specs.Prelude.{◌≡◌, ◌^◌, ◌<◌, OnOk, OnErr, None};
ghost use Rattle.std.specs.Option.{option_copied};
ghost use Rattle.std.specs.FinMap.{empty};
ghost use Rattle.psos_table.specs.Table.{at, put, without, kept, has, size};
ghost use Rattle.psos_counts.specs.Counted.{is_of_class, is_apart};

use crate::Class;
use crate::counts::{count_down, count_in, count_up};
use psos_table::{Table, Test};
use std::alloc::{AllocError, Global};
use std::marker::{Model, PhantomData};

/// Rows under numbers, seen as a finite map. How many rows a class has costs one look-up.
#[derive(Drop)]
pub struct Counted<V, C: Class<V>> {
    rows: Table<V>,
    // How many rows each class has, where it has one.
    counts: Table<usize>,
    classes: PhantomData<C>,
}

impl<V, C: Class<V>> Model for Counted<V, C> {
    ghost use Rattle.std.specs.Ordering.{nat_cmp};
    ghost use Rattle.std.specs.FinMap as map;
    ghost use Rattle.std.specs.Coded.{coded_ℕ};
    ghost use Rattle.psos_counts.specs.Counted.{AreCounts};

    ghost Value = { map.FinMap nat_cmp V };

    ghost coded = { map.code coded_ℕ V.code };

    ghost view = { λ t. t.rows };

    ghost invariant = { λ t. AreCounts C.class t.rows t.counts };
}

// The rows that are not of one class.
#[derive(Drop)]
struct Apart<C> {
    class: u64,
    classes: PhantomData<C>,
}

impl<V, C: Class<V>> Test<V> for Apart<C> {
    ghost test = { λ s. is_apart C.class s.class };

    fn passes(&self, row: &V) -> bool {
        match C::class_of(row) {
            Some(class) => class != self.class,
            None => true,
        }
    }
}

impl<V: Drop, C: Class<V>> Counted<V, C> {
    /// No row. It takes no memory.
    pub fn new(alloc: Global) -> Self
        ensures { result ≡ empty }
    {
        Counted {
            rows: Table::new(alloc),
            counts: Table::new(alloc),
            classes: PhantomData,
        }
    }

    /// The row under a number, lent and not copied.
    pub fn get(&self, key: u64) -> Option<&V>
        ensures { option_copied result ≡ at self.now key }
    {
        self.rows.get(key)
    }

    /// Whether there is a row under a number.
    pub fn has(&self, key: u64) -> bool
        ensures { result ≡ has self.now key }
    {
        self.rows.has(key)
    }

    /// How many rows there are.
    pub fn len(&self) -> usize
        ensures len { result ≡ size self.now }
        ensures small { size self.now < 2 ^ 63 }
    {
        self.rows.len()
    }

    /// How many rows there are of a class. It costs one look-up.
    pub fn count(&self, class: u64) -> usize
        ensures { result ≡ size (kept (is_of_class C.class class) self.now) }
    {
        count_in(&self.counts, class)
    }

    /// Puts a row under a new number. `Err` only where memory runs out: it drops the row and changes nothing.
    pub fn put_new(&mut self, key: u64, row: V) -> Result<(), AllocError>
        requires { at self.old key ≡ None }
        ensures ok { OnOk result (self.new ≡ put self.old key row) }
        ensures err { OnErr result (self.new ≡ self.old) }
    {
        // So few rows that no count of them wraps.
        let _few = self.rows.len();
        let class = C::class_of(&row);
        self.rows.put(key, row)?;
        let Some(class) = class else {
            return Ok(());
        };
        match count_up(&mut self.counts, class) {
            Ok(()) => Ok(()),
            Err(refusal) => {
                self.rows.remove(key);
                Err(refusal)
            }
        }
    }

    /// Takes the row under a number out, and gives it back.
    pub fn remove(&mut self, key: u64) -> Option<V>
        ensures value { result ≡ at self.old key }
        ensures rest { self.new ≡ without self.old key }
    {
        let row = self.rows.remove(key)?;
        let Some(class) = C::class_of(&row) else {
            return Some(row);
        };
        count_down(&mut self.counts, class);
        Some(row)
    }

    /// Drops all rows of a class. It looks at the rows only where the class has one.
    pub fn drop_class(&mut self, class: u64)
        ensures { self.new ≡ kept (is_apart C.class class) self.old }
    {
        if self.count(class) == 0 {
            return;
        }
        self.rows.keep(&Apart::<C> {
            class,
            classes: PhantomData,
        });
        self.counts.remove(class);
    }
}
