// What a member has of its ledger.
use crate::group::SixFrom;
use crate::names::Names;
use crate::one_of_six::OneOfSix;

/// Which member it is, with its side of its count. The members stand in four groups of six, each named by its first member.
#[derive(Drop)]
pub(crate) enum Mark<T: Names> {
    From0(OneOfSix<SixFrom<T, 0>>),
    From6(OneOfSix<SixFrom<T, 6>>),
    From12(OneOfSix<SixFrom<T, 12>>),
    From18(OneOfSix<SixFrom<T, 18>>),
}
