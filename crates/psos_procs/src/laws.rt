// How one mailbox and level 12 fit together.
ghost use Rattle.psos_procs.specs.Mailboxes.{MailboxesAreParts};

/// A law, and no work: a call at level 12 is the call of the mailbox of its part. It leaves all other mailboxes as
/// they are, puts what `act_box` leaves in this one, and has the answer of `act_box`.
pub fn mailboxes_are_parts()
    ensures { MailboxesAreParts }
{}
