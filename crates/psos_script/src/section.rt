// Where a line stands.
/// Where a line stands: outside of any block and user, in a code block, or in a user.
#[derive(Clone, Copy, PartialEq, Eq, Debug)]
pub enum Section {
    Outside,
    InBody,
    InUser,
}
