// Tables: rows under numbers.
ghost use Rattle.std.specs.Prelude.{nat_lt};

use crate::lines::{put_answer, put_count, put_option};
use psos_table::{Change, Table, Test};
use std::alloc::{AllocError, Global};

// Rows below a bound.
struct Below(u64);

impl Test<u64> for Below {
    ghost test = { λ s x. nat_lt x s.0 };

    fn passes(&self, row: &u64) -> bool {
        *row < self.0
    }
}

// Another row.
struct Becomes(u64);

impl Change<u64> for Becomes {
    ghost change = { λ s x. s.0 };

    fn apply(&self, row: &mut u64) {
        *row = self.0;
    }
}

// A table can be handed to another thread.
fn crosses<X: Send + Sync>(_x: &X) {}

fn put_rows(alloc: Global, out: &mut Vec<u8>) -> Result<(), AllocError> {
    let mut table = Table::new(alloc);
    crosses::<Table<u64>>(&table);
    table.put(7, 70)?;
    table.put(9, 90)?;
    table.put(1 << 63, 5)?;
    table.put(7, 71)?;
    put_count(alloc, out, b"rows put", table.len())?;
    put_option(alloc, out, b"row 7", table.get(7).copied())?;
    put_option(alloc, out, b"row 8", table.get(8).copied())?;
    put_answer(out, b"there is a row 9", table.has(9))?;
    put_answer(out, b"there is a row 0", table.has(0))?;
    table.edit(9, &Becomes(91));
    table.edit(8, &Becomes(80));
    put_option(alloc, out, b"row 9 edited", table.get(9).copied())?;
    put_option(alloc, out, b"row 8 edited", table.get(8).copied())?;
    if let Some(row) = table.get_mut(7) {
        *row = 72;
    }
    put_option(alloc, out, b"row 7 changed", table.get(7).copied())?;
    table.keep(&Below(91));
    put_count(alloc, out, b"rows kept", table.len())?;
    put_answer(out, b"there is a row 9", table.has(9))?;
    put_answer(out, b"there is a row 2^63", table.has(1 << 63))?;
    put_option(alloc, out, b"row 7 removed", table.remove(7))?;
    put_option(alloc, out, b"row 7 again", table.remove(7))?;
    put_count(alloc, out, b"rows left", table.len())
}

// Rows that are lists, one of them made longer in its place.
fn put_lists(alloc: Global, out: &mut Vec<u8>) -> Result<(), AllocError> {
    let mut table: Table<Vec<u64>> = Table::new(alloc);
    table.put(3, Vec::new(alloc))?;
    if let Some(list) = table.get_mut(3) {
        list.push(30)?;
        list.push(31)?;
    }
    put_count(
        alloc,
        out,
        b"numbers in row 3",
        table.get(3).map_or(0, |list| list.len()),
    )
}

pub(crate) fn put_tables(alloc: Global, out: &mut Vec<u8>) -> Result<(), AllocError> {
    out.extend_from_slice(b"== tables\n")?;
    put_rows(alloc, out)?;
    put_lists(alloc, out)
}
