// What a plan does next.
use crate::{Effect, Level, LevelCall, Reply};

/// What a plan does next: a call of a level, or the close of its request.
#[derive(Drop)]
pub enum Next {
    Call(Level, LevelCall),
    Close(Reply, Effect),
}
