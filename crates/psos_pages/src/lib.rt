//! Level 7: page slots and the words of their pages, which lie in frames over a backing store.
#![tactic(auto)]

mod accesses;
mod blocks;
mod frames;
mod held;
mod laws;
mod pages;
mod residence;
mod slots;

pub use laws::{frames_fill_without_the_store, victims_had_their_second_chance};
pub use pages::Pages;
