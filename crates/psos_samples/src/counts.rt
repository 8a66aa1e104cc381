// Tables whose rows are counted by class.
use crate::lines::{put_count, put_option};
use psos_counts::{Class, Counted};
use std::alloc::{AllocError, Global};

// Numbers by their last digit; those below ten have no class.
struct LastDigit;

impl Class<u64> for LastDigit {
    ghost use Rattle.std.specs.Prelude.{◌%◌, Some, None, nat_lt, if◌then◌else◌};

    ghost class = { λ x. if nat_lt x 10 then None else Some (x % 10) };

    fn class_of(row: &u64) -> Option<u64> {
        if *row < 10 { None } else { Some(*row % 10) }
    }
}

// Such a table can be handed to another thread.
fn crosses<X: Send + Sync>(_x: &X) {}

pub(crate) fn put_counts(alloc: Global, out: &mut Vec<u8>) -> Result<(), AllocError> {
    out.extend_from_slice(b"== counts\n")?;
    let mut table: Counted<u64, LastDigit> = Counted::new(alloc);
    crosses::<Counted<u64, LastDigit>>(&table);
    'rows: for (key, row) in [(1, 13), (2, 23), (3, 3), (4, 14), (1 << 63, 33)] {
        if !table.has(key) {
            table.put_new(key, row)?;
        }
    }
    put_count(alloc, out, b"rows put", table.len())?;
    put_count(alloc, out, b"of class 3", table.count(3))?;
    put_count(alloc, out, b"of class 4", table.count(4))?;
    put_count(alloc, out, b"of class 5", table.count(5))?;
    put_option(alloc, out, b"row 2", table.get(2).copied())?;
    put_option(alloc, out, b"row 7", table.get(7).copied())?;
    put_option(alloc, out, b"row 4 removed", table.remove(4))?;
    put_option(alloc, out, b"row 4 again", table.remove(4))?;
    put_count(alloc, out, b"of class 4", table.count(4))?;
    put_option(alloc, out, b"row 1 removed", table.remove(1))?;
    put_count(alloc, out, b"of class 3", table.count(3))?;
    table.drop_class(4);
    put_count(alloc, out, b"rows without class 4", table.len())?;
    table.drop_class(3);
    put_count(alloc, out, b"rows without class 3", table.len())?;
    put_count(alloc, out, b"of class 3", table.count(3))?;
    put_option(alloc, out, b"row 3 removed", table.remove(3))
}
