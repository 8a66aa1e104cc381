//! Level 8: segments and windows (docs/levels.md, "Calls").
#![tactic(auto)]

mod over;
mod segs;
mod view;

pub use segs::Segs;
