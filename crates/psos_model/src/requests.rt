// The outcome of a request.
ghost use Rattle.std.specs.Prelude.{◌≡◌, ◌+◌, ◌<◌, ◌^◌, IfOk};
ghost use Rattle.psos_limits.specs.declared.TheConstants.{MOST_CODES};
ghost use Rattle.psos_calls.specs.Language.Request.{InRange};
ghost use Rattle.psos_calls.specs.Language.User.{CanMake};
ghost use Rattle.psos_model.specs.Answer.{outcome};
ghost use Rattle.psos_model.specs.Flat.Within.{IsWithin};

use crate::answer_dir::{
    answer_bind, answer_find, answer_list, answer_lookup, answer_path, answer_unbind,
};
use crate::answer_life::{
    answer_delete, answer_impl, answer_mkcode, answer_mkdir, answer_mkobj, answer_mkseg,
    answer_mktype,
};
use crate::answer_proc::{answer_call, answer_recv, answer_send};
use crate::answer_seg::{
    answer_add, answer_length, answer_mint, answer_move, answer_read, answer_restrict, answer_set,
    answer_window, answer_write,
};
use crate::{Flat, Outcome};
use psos_calls::{Private, Request};
use std::alloc::{AllocError, Global};

/// What a request of a user does. `Err` only where memory runs out, which only the names of a `list` take.
pub(crate) fn outcome_of(
    alloc: Global,
    flat: &Flat,
    me: &Private,
    request: &Request,
) -> Result<Outcome, AllocError>
    requires range { InRange MOST_CODES request.now }
    requires within { IsWithin flat.now }
    requires room { flat.now.next + 2 < 2 ^ 64 }
    ensures value { IfOk result (λ o. o ≡ outcome flat.now me.now request.now) }
    ensures fits { IfOk result (λ o. CanMake me.now o.effect) }
{
    let outcome = match *request {
        Request::Mint { rd } => answer_mint(flat, rd),
        Request::Restrict { rd, rs, keep } => answer_restrict(me, rd, rs, keep),
        Request::Set { rd, n } => answer_set(rd, n),
        Request::Move { rd, rs } => answer_move(me, rd, rs),
        Request::Add { rd, ra, rb } => answer_add(me, rd, ra, rb),
        Request::Read { rd, rs, n } => answer_read(flat, me, rd, rs, n),
        Request::Write { rs, n, rv } => answer_write(flat, me, rs, n, rv),
        Request::Window { rd, rs, base, len } => answer_window(flat, me, rd, rs, base, len),
        Request::Length { rd, rs } => answer_length(flat, me, rd, rs),
        Request::Lookup { rd, rs, name } => answer_lookup(flat, me, rd, rs, name),
        Request::Bind { rs, name, rv } => answer_bind(flat, me, rs, name, rv),
        Request::Unbind { rs, name } => answer_unbind(flat, me, rs, name),
        Request::List { rs } => return answer_list(alloc, flat, me, rs),
        Request::Impl { rd, rt, ro } => answer_impl(flat, me, rd, rt, ro),
        Request::MkSeg {
            rd,
            rs,
            name,
            len,
            guard,
        } => answer_mkseg(flat, me, rd, rs, name, len, guard),
        Request::MkDir {
            rd,
            rs,
            name,
            guard,
        } => answer_mkdir(flat, me, rd, rs, name, guard),
        Request::MkType { rd, rs, name } => answer_mktype(flat, me, rd, rs, name),
        Request::MkObj {
            rd,
            rt,
            rs,
            name,
            len,
        } => answer_mkobj(flat, me, rd, rt, rs, name, len),
        Request::MkCode {
            rd,
            rs,
            name,
            label,
            rl,
        } => answer_mkcode(flat, me, rd, rs, name, label, rl),
        Request::Delete { rs, name } => answer_delete(flat, me, rs, name),
        Request::Send { rp, rv } => answer_send(flat, me, rp, rv),
        Request::Recv { rd } => answer_recv(flat, me, rd),
        Request::Call { rp } => answer_call(flat, me, rp),
        Request::Path { rs } => answer_path(flat, me, rs),
        Request::Find { rd, name } => answer_find(flat, me, rd, name),
    };
    Ok(outcome)
}
