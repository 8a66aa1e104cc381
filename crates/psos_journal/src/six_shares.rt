// The members' sides of six counts.
use crate::count_of::CountOf;
use crate::group::Group;
use crate::member_count::MemberCount;

/// The side of each member of a group, before these are made.
#[derive(Drop)]
pub(crate) struct SixShares<G: Group> {
    pub(crate) first: MemberCount<CountOf<G, 0>>,
    pub(crate) second: MemberCount<CountOf<G, 1>>,
    pub(crate) third: MemberCount<CountOf<G, 2>>,
    pub(crate) fourth: MemberCount<CountOf<G, 3>>,
    pub(crate) fifth: MemberCount<CountOf<G, 4>>,
    pub(crate) sixth: MemberCount<CountOf<G, 5>>,
}
