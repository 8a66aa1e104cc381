// Where each user's entries stand.
ghost use Rattle.std.specs.Prelude.{◌≡◌, ◌<◌, ◌^◌, [], length, map, replicate, IfOk, OnOk};
ghost use Rattle.psos_print.specs.Positions.{HasPositions, IsNoted};

use psos_calls::Entry;
use std::alloc::{AllocError, Global};

// So many lists with nothing in them.
fn no_positions(alloc: Global, users: usize) -> Result<Vec<Vec<u32>>, AllocError>
    ensures { IfOk result (λ v. map (λ l. l.items) v.items ≡ replicate users []) }
{
    let mut lists = Vec::new(alloc);
    'users: for _ in 0..users {
        lists.push(Vec::new(alloc))?;
    }
    Ok(lists)
}

// One position more of a user; a user without a list is passed over.
fn note(lists: &mut Vec<Vec<u32>>, user: usize, position: u32) -> Result<(), AllocError>
    ensures { OnOk result (IsNoted (map (λ l. l.items) lists.old.items) (map (λ l. l.items) lists.new.items) user position) }
{
    if let Some(list) = lists.get_mut(user) {
        list.push(position)?;
    }
    Ok(())
}

// The positions of each of so many users, in their order. The entries are gone over once.
pub(crate) fn gather(
    alloc: Global,
    users: usize,
    entries: &[Entry],
) -> Result<Vec<Vec<u32>>, AllocError>
    requires { length entries.now < 2 ^ 32 }
    ensures { IfOk result (λ v. HasPositions users (map (λ l. l.items) v.items) entries.now) }
{
    let mut lists = no_positions(alloc, users)?;
    let mut position = 0u32;
    'entries: for entry in entries {
        note(&mut lists, usize::from(entry.user), position)?;
        position += 1;
    }
    Ok(lists)
}
