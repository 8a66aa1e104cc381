// A word that came to a place.
ghost use Rattle.std.specs.Prelude.{◌≡◌, ◌<◌, ◌+◌, ◌^◌, ◌==◌};
ghost use Rattle.psos_model.specs.Flat.Places.{same_place};
ghost use Rattle.psos_laws.specs.Arrivals.{raised};

use psos_model::{Place, Source};

/// A word that came to a place, and the place that it was read from, if any.
#[derive(Clone, Copy)]
pub(crate) struct Arrival {
    pub place: Place,
    pub source: Option<Source>,
}

/// Whether the first place is the second. Of a message it is the place before so many were drawn from its mailbox.
pub(crate) fn is_at(place: &Place, drawn: usize, other: &Place) -> bool
    requires { drawn < 2 ^ 32 }
    ensures { result ≡ same_place (raised place.now drawn) other.now }
{
    match (*place, *other) {
        (Place::Reg { user: u, i }, Place::Reg { user: v, i: j }) => u == v && i == j,
        (
            Place::FrameReg {
                user: u,
                depth: d,
                i,
            },
            Place::FrameReg {
                user: v,
                depth: e,
                i: j,
            },
        ) => { u == v && (d == e && i == j) }
        (Place::PathAt { user: u, i }, Place::PathAt { user: v, i: j }) => u == v && i == j,
        (Place::SegWord { uid: u, i }, Place::SegWord { uid: v, i: j }) => u.0 == v.0 && i == j,
        (Place::DirName { uid: u, name: n }, Place::DirName { uid: v, name: m }) => {
            u.0 == v.0 && n == m
        }
        (Place::BoxAt { uid: u, i }, Place::BoxAt { uid: v, i: j }) => {
            u.0 == v.0 && is_message(i, drawn, j)
        }
        (Place::Link { uid: u }, Place::Link { uid: v }) => u.0 == v.0,
        (Place::ImplOf { uid: u }, Place::ImplOf { uid: v }) => u.0 == v.0,
        _ => false,
    }
}

// Whether message i is message j, once so many were drawn.
fn is_message(i: u8, drawn: usize, j: u8) -> bool
    requires { drawn < 2 ^ 32 }
    ensures { result ≡ (i + drawn == j) }
{
    i as usize + drawn == j as usize
}
