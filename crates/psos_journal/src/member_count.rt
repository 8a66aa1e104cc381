// A member's side of its count.
ghost use Rattle.std.specs.Prelude.{◌≡◌};

use std::sync::ledger::{Ledger, Share};

/// The number of a member's entries, as the member keeps it: its amount. It takes no bytes.
#[derive(Drop)]
pub(crate) struct MemberCount<L: Ledger> {
    pub(crate) share: Share<L>,
    pub(crate) ghost whole: { share.parts ≡ 1 },
}
