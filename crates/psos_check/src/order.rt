// The order of stamps.
ghost use Rattle.std.specs.Prelude.{◌≡◌, ℕ, ◌<◌, None, Some, length, map, is_none, slice_index_or, slice_set, IfOk, IfNone, IfSome};
ghost use Rattle.std.specs.Bool.{OnTrue};
ghost use Rattle.psos_check.specs.Order.{HasEachStamp, HasGap, IsOrder};

use crate::stamped::Stamped;
use std::alloc::{AllocError, Global};

/// The users by stamp: at each place of the order, the user of the line with this stamp. None exactly where the stamps
/// are not each number below the number of lines once. `Err` only where memory runs out.
pub fn order_of_stamps(alloc: Global, lines: &[Stamped]) -> Result<Option<Vec<u8>>, AllocError>
    ensures some { IfOk result (λ o. IfSome o (λ order. IsOrder lines.now order.items)) }
    ensures none { IfOk result (λ o. IfNone o (¬ HasEachStamp lines.now)) }
{
    let mut places: Vec<Option<u8>> = vec![in alloc; None; lines.len()]?;
    'lines: for line in lines {
        if !put(&mut places, *line) {
            return Ok(None);
        }
    }
    users(alloc, &places)
}

// Puts a user at a stamp; false where a user stands there already. A stamp past the places is passed over, and then a
// place stays empty.
fn put(places: &mut Vec<Option<u8>>, line: Stamped) -> bool
    ensures free { result ≡ is_none (slice_index_or places.old.items line.stamp None) }
    ensures put { OnTrue result (places.new.items ≡ slice_set places.old.items line.stamp (Some line.user)) }
{
    let at = line.stamp as usize;
    if at >= places.len() {
        return true;
    }
    if places[at].is_some() {
        return false;
    }
    places[at] = Some(line.user);
    true
}

// The users at the places, unless one is empty.
fn users(alloc: Global, places: &[Option<u8>]) -> Result<Option<Vec<u8>>, AllocError>
    ensures some { IfOk result (λ o. IfSome o (λ users. places.now ≡ map (λ user. Some user) users.items)) }
    ensures none { IfOk result (λ o. IfNone o (HasGap places.now)) }
{
    let mut users = Vec::with_capacity(alloc, places.len())?;
    'places: for place in places {
        let Some(user) = place else {
            return Ok(None);
        };
        if users.push(*user).is_err() {
            return Err(AllocError);
        }
    }
    Ok(Some(users))
}
