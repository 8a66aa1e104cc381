//! Levels behind locks, for users in threads of their own.
#![tactic(auto)]

mod book;
mod close;
mod counted_pages;
mod crossing;
mod ending;
mod hands;
mod held;
mod laws;
mod left;
mod locks;
mod meet;
mod opening;
mod own;
mod part;
mod performing;
mod phases;
mod places;
mod request;
mod run;
mod scene;
mod threads;
mod user;
mod work;

pub use book::Book;
pub use counted_pages::CountedPages;
pub use crossing::crosses;
pub use hands::Hands;
pub use held::Held;
pub use laws::ends_are_runs;
pub use locks::{Locks, look};
pub use own::Own;
pub use part::Part;
pub use performing::perform;
pub use phases::run_phases;
pub use request::serve;
pub use run::Run;
pub use scene::Scene;
pub use threads::run_threads;
pub use user::UserState;
