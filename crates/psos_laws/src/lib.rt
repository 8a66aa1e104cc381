//! Where each capability of a run comes from, and the laws of who can hold what.
//!
//! The definitions are in specs/. They follow a run back from any place: what each request put where, and from
//! which place its user had it.
#![tactic(auto)]

mod arrival;
mod arrivals;
mod coming;
mod held;
mod orders;
mod origin;
mod origins;
mod places;
mod sound;
mod starts;
mod watched;
mod way;

pub use orders::{complete_orders_have_all, orders_end};
pub use origin::Origin;
pub use places::{
    a_process_is_confined, confined_stays, confined_stays_once, landings_are_all, landings_stay,
    places_stay_sound, runs_are_lawful, unread_is_new,
};
pub use sound::{answers_keep_sound, runs_keep_sound, shared_stays_sound};
pub use starts::{boot_is_start, sound_can_step, users_stay_sound};
pub use watched::Watched;
pub use way::Way;
