// What six new members have of their ledgers.
use crate::mark::Mark;
use crate::names::Names;

/// The marks of six members, in the order of their numbers.
#[derive(Drop)]
pub(crate) struct SixMarks<T: Names> {
    pub(crate) first: Mark<T>,
    pub(crate) second: Mark<T>,
    pub(crate) third: Mark<T>,
    pub(crate) fourth: Mark<T>,
    pub(crate) fifth: Mark<T>,
    pub(crate) sixth: Mark<T>,
}
