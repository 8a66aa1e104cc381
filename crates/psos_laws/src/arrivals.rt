// What one request put where.
ghost use Rattle.std.specs.Prelude.{◌≡◌, ◌≤◌, ◌<◌, ◌+◌, ◌^◌};
ghost use Rattle.psos_laws.specs.Arrivals.{raised, last_to as last_in, moved_by};

use crate::arrival::{Arrival, is_at};
use psos_model::{Place, Source};

/// What one request put where, the first in front; the next identifier before it; and the mailbox that it drew from,
/// if any.
#[derive(Drop)]
pub(crate) struct Arrivals {
    pub next: u64,
    pub list: Vec<Arrival>,
    pub drawn: Option<u64>,
}

/// The source of the last that came to a place, or else what was found before. Of a message it is the place before so
/// many were drawn from its mailbox.
pub(crate) fn last_to(
    last: Option<Option<Source>>,
    list: &[Arrival],
    place: &Place,
    drawn: usize,
) -> Option<Option<Source>>
    requires { drawn < 2 ^ 32 }
    ensures { result ≡ last_in last list.now (raised place.now drawn) }
{
    match list.split_first() {
        Some((first, rest)) => {
            let found = if is_at(place, drawn, &first.place) {
                Some(first.source)
            } else {
                last
            };
            last_to(found, rest, place, drawn)
        }
        None => last,
    }
}

/// How many messages were drawn from the mailbox of a place since, with this request.
pub(crate) fn drawn_since(place: &Place, drawn: usize, from: Option<u64>) -> usize
    requires { drawn < 2 ^ 32 }
    ensures moved { raised place.now result ≡ moved_by from (raised place.now drawn) }
    ensures one { result ≤ drawn + 1 }
{
    match (*place, from) {
        (Place::BoxAt { uid, .. }, Some(mailbox)) => {
            if uid.0 == mailbox { drawn + 1 } else { drawn }
        }
        _ => drawn,
    }
}
