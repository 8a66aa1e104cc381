// The close of a request.
ghost use Rattle.std.specs.Prelude.{◌≡◌, ℕ, None, Some, IfSome, IfNone, IsSome, IsTrue};
ghost use mathlib.Core.List.{IsPrefix};
ghost use Rattle.psos_calls.specs.Language.Script.{IsWellFormed};
ghost use Rattle.psos_calls.specs.Language.User.{next_request};
ghost use Rattle.psos_calls.specs.Plan.{Close};
ghost use Rattle.psos_calls.specs.Plan.Requests.{plan_of};
ghost use Rattle.psos_calls.specs.Plan.Trace.{followed};
ghost use Rattle.psos_locks.specs.Grips.{grips_of};
ghost use Rattle.psos_locks.specs.Users.{has_more, past_in, HasClosed, IsAtWork};

use crate::book::Book;
use crate::hands::Hands;
use crate::own::Own;
use crate::run::Run;
use psos_calls::{Entry, Request, Script};
use psos_core::Closing;
use psos_io::Store;
use psos_journal::Receipt;
use std::alloc::Global;

// What is known of each user's last entry is of the journal's first entries. Nothing changes.
fn agree<T: Run>(book: &mut Book<T>, receipts: &[Option<Receipt<T, Entry>>])
    ensures same { book.new ≡ book.old }
    ensures first { (v : ℕ) → IsPrefix (past_in receipts.now v) book.old.entries }
{
    'users: for receipt in receipts {
        book.agree(receipt);
    }
}

/// Closes a request: its user and all locks that it holds meet the journal, its entry comes last and names them, and
/// its effect is settled. Its stamp. None where the run is stopped or memory runs out: no entry is added, and nothing
/// changes.
pub(crate) fn close<'a, T: Run, B: Store>(
    book: &mut Book<T>,
    alloc: Global,
    script: &Script,
    own: &mut Own<T>,
    hands: &mut Hands<'a, T, B>,
    request: &Request,
    closing: Closing,
) -> Option<u32>
    requires script { script.now ≡ T.script }
    requires well_formed { IsWellFormed T.script }
    requires asks { next_request T.script own.old.own ≡ Some request.now }
    requires left { IsTrue (has_more T.script own.old) }
    requires work { IsAtWork T.script own.old request.now (grips_of hands.old) }
    requires over { followed (plan_of own.old.own request.now) own.old.trace ≡ Close closing.reply closing.effect }
    ensures closed { IfSome result (λ stamp. HasClosed own.old stamp own.new) }
    ensures kept { IfNone result (own.new ≡ own.old) }
    ensures going { IsSome result → book.old.stopped ≡ None }
    ensures stopped { book.new.stopped ≡ book.old.stopped }
{
    let _request = request;
    book.know(&mut own.member);
    agree(book, &own.receipts);
    hands.meet(book);
    let (n, m) = own.private.place();
    let Ok(steps) = own.trace.calls(alloc) else {
        return None;
    };
    let Closing { reply, effect } = closing;
    let user = own.member.number();
    let entry = Entry {
        user,
        n,
        m,
        steps,
        reply,
    };
    let names = hands.names(user);
    let stamp = book.close(alloc, entry, names, &mut own.member, hands)?;
    own.private.settle(&effect, script);
    Some(stamp)
}
