// A call that was made.
use crate::{CallRef, Level, LevelAnswer, Sheet};

/// One call of an open request, and its answer, as they lie in a trace.
#[derive(Drop)]
pub struct Step<'a> {
    pub level: Level,
    pub call: CallRef<'a>,
    pub answer: LevelAnswer<Sheet<'a>>,
}
