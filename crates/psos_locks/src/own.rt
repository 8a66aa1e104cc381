// A user's own part, and what it knows of a run.
ghost use Rattle.std.specs.Prelude.{◌≡◌, ◌≤◌, ◌<◌, ◌+◌, true, false, length, slice_set, Some, IsTrue};
ghost use Rattle.psos_limits.specs.declared.TheConstants.{MOST_REQUESTS};
ghost use Rattle.psos_calls.specs.Language.Script.{IsWellFormed};
ghost use Rattle.psos_calls.specs.Language.User.{next_request};
ghost use Rattle.psos_journal.specs.Views.{list_of};
ghost use Rattle.psos_locks.specs.Runs.{IsOwn, Knows};
ghost use Rattle.psos_locks.specs.Users.{has_more, past_of, IsAhead, ShowsPast, ShowPast};

use crate::book::Book;
use crate::run::Run;
use psos_calls::{Entry, Private, Request, Script, Trace};
use psos_core::{is_open, phase_of};
use psos_journal::{Member, Receipt, StopCause};
use std::marker::Model;

/// A user's own part, its member of the journal, its phase, by number what it knows of the last entry of each user, and
/// the calls of its open request, or what is left of those of the last one. The own part is that of the replay of the entries that its member knows; and by what it knows, nobody asks
/// anything more of the phases before its own (docs/levels.md, "Phases").
#[derive(Drop)]
pub struct Own<T: Run> {
    pub(crate) private: Private,
    pub(crate) member: Member<T, Entry>,
    pub(crate) phase: u32,
    pub(crate) receipts: Vec<Option<Receipt<T, Entry>>>,
    pub(crate) trace: Trace,
}

impl<T: Run> Model for Own<T> {
    ghost use Rattle.psos_locks.specs.Users.{OwnView, IsUser};

    ghost Value = { OwnView };

    ghost view = { λ u. record { own = u.private; side = u.member; phase = u.phase; receipts = u.receipts.items; trace = u.trace } };

    ghost invariant = { λ u. IsUser T.script (record { own = u.private; side = u.member; phase = u.phase; receipts = u.receipts.items; trace = u.trace }) };
}

impl<T: Run> Own<T> {
    /// The own part, when a run ends. The member meets the journal.
    pub(crate) fn end(self, book: &mut Book<T>) -> Private
        ensures book { book.new ≡ book.old }
        ensures own { IsOwn T.script self.side self.own }
        ensures knows { Knows self.side book.old.entries }
        ensures told { self.side.told ≡ true → book.old.stopped ≡ Some StopCause.Store }
        ensures part { result ≡ self.own }
    {
        let Own {
            private,
            mut member,
            phase: _,
            receipts: _,
            trace: _,
        } = self;
        book.know(&mut member);
        private
    }

    /// Whether the user has an open body, or asks anything more of its phase.
    pub fn has_more(&self, script: &Script) -> bool
        requires { script.now ≡ T.script }
        ensures more { result ≡ has_more T.script self.now }
        ensures ahead { IsAhead T.script self.now }
    {
        is_open(&self.private) || phase_of(script, &self.private) == Some(self.phase as usize)
    }

    /// The number of the user.
    pub(crate) fn number(&self) -> u8
        ensures { result ≡ self.now.side.number }
    {
        self.member.number()
    }

    /// The next request of a user that has an open body, or asks anything more of its phase. It has few entries so far.
    pub(crate) fn next_request(&self, script: &Script) -> Request
        requires script { script.now ≡ T.script }
        requires well_formed { IsWellFormed T.script }
        requires more { IsTrue (has_more T.script self.now) }
        ensures asks { next_request T.script self.now.own ≡ Some result }
        ensures few { length (list_of self.now.side) ≤ MOST_REQUESTS }
    {
        match self.private.next_request(script) {
            Some(request) => request,
            None => unreachable!(),
        }
    }

    /// What the user's member knows of its last entry, or that it has none. It shows that the user asks nothing more of
    /// the phases before its own, nor of its own where it has no more to ask there.
    pub(crate) fn receipt(&self) -> Option<Receipt<T, Entry>>
        ensures known { past_of result ≡ self.now.side.past }
        ensures past { ShowsPast T.script self.now.phase self.now.side.number self.now.side.past }
        ensures through { has_more T.script self.now ≡ false → ShowsPast T.script (self.now.phase + 1) self.now.side.number self.now.side.past }
    {
        self.member.receipt()
    }

    /// Keeps what is known of another user's last entry, which shows that this one asks nothing more of the phases before
    /// the keeper's.
    pub(crate) fn keep(&mut self, other: usize, receipt: Option<Receipt<T, Entry>>)
        requires room { other < length self.old.receipts }
        requires shown { ShowsPast T.script self.old.phase other (past_of receipt) }
        ensures { self.new ≡ record self.old { receipts = slice_set self.old.receipts other receipt } }
    {
        self.receipts[other] = receipt;
    }

    /// The user goes to this phase, before which it and all others ask nothing more, by what it knows.
    pub(crate) fn advance(&mut self, next: u32)
        requires past { ShowsPast T.script next self.old.side.number self.old.side.past }
        requires shown { ShowPast T.script next self.old.receipts }
        ensures { self.new ≡ record self.old { phase = next } }
    {
        self.phase = next;
    }
}
