// A member's side of its count, among six.
use crate::count_of::CountOf;
use crate::group::Group;
use crate::member_count::MemberCount;

/// Which member of a group it is, with its side of its count.
#[derive(Drop)]
pub(crate) enum OneOfSix<G: Group> {
    First(MemberCount<CountOf<G, 0>>),
    Second(MemberCount<CountOf<G, 1>>),
    Third(MemberCount<CountOf<G, 2>>),
    Fourth(MemberCount<CountOf<G, 3>>),
    Fifth(MemberCount<CountOf<G, 4>>),
    Sixth(MemberCount<CountOf<G, 5>>),
}
