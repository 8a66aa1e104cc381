// Outcomes of registers, segments and windows.
ghost use Rattle.std.specs.Prelude.{◌≡◌, ◌+◌, ◌<◌, ◌≤◌, true};
ghost use Rattle.psos_limits.specs.declared.TheConstants.{MOST_WORDS};
ghost use Rattle.psos_calls.specs.Language.User.{User, CanMake};
ghost use Rattle.psos_model.specs.Answer.Segments.{answer_mint, answer_restrict, answer_set, answer_move, answer_add, answer_read, answer_write, answer_window, answer_length};
ghost use Rattle.psos_calls.specs.Language.Views.{fits_in, part_of};
ghost use Rattle.psos_model.specs.Flat.Within.{IsWithin, as_view};

use crate::access::view_by;
use crate::guards::barred;
use crate::issue::{capability, full};
use crate::outcome::{by, does, gives, own, refuse, reg_place};
use crate::{Change, ChangeList, Flat, FlatView, Outcome, Place};
use psos_calls::{Private, Refusal, Right, Tab, WinRow};
use psos_caps::{Rights, Uid};
use psos_limits::MOST_WINDOWS;
use psos_words::Word;

pub(crate) fn answer_mint(flat: &Flat, rd: u8) -> Outcome
    requires { rd < 16 }
    ensures value { result ≡ answer_mint flat.now rd }
    ensures fits { (x : User) → CanMake x result.effect }
{
    gives(
        ChangeList::one(Change::Fresh),
        rd,
        Word::Cap(full(flat.next)),
        None,
    )
}

pub(crate) fn answer_restrict(me: &Private, rd: u8, rs: u8, keep: Rights) -> Outcome
    requires { (rd < 16) × (rs < 16) }
    ensures value { result ≡ answer_restrict me.now rd rs keep.0 }
    ensures fits { CanMake me.now result.effect }
{
    let Word::Cap(cap) = me.here(rs) else {
        return refuse(Refusal::NotCap);
    };
    gives(
        ChangeList::none(),
        rd,
        Word::Cap(cap.restrict(keep)),
        own(reg_place(me, rs)),
    )
}

pub(crate) fn answer_set(rd: u8, n: u64) -> Outcome
    requires { rd < 16 }
    ensures value { result ≡ answer_set rd n }
    ensures fits { (x : User) → CanMake x result.effect }
{
    gives(ChangeList::none(), rd, Word::Data(n), None)
}

pub(crate) fn answer_move(me: &Private, rd: u8, rs: u8) -> Outcome
    requires { (rd < 16) × (rs < 16) }
    ensures value { result ≡ answer_move me.now rd rs }
    ensures fits { CanMake me.now result.effect }
{
    gives(ChangeList::none(), rd, me.here(rs), own(reg_place(me, rs)))
}

pub(crate) fn answer_add(me: &Private, rd: u8, ra: u8, rb: u8) -> Outcome
    requires { (rd < 16) × (ra < 16) × (rb < 16) }
    ensures value { result ≡ answer_add me.now rd ra rb }
    ensures fits { CanMake me.now result.effect }
{
    let Word::Data(a) = me.here(ra) else {
        return refuse(Refusal::NotData);
    };
    let Word::Data(b) = me.here(rb) else {
        return refuse(Refusal::NotData);
    };
    let Some(sum) = a.checked_add(b) else {
        return refuse(Refusal::Overflow);
    };
    gives(ChangeList::none(), rd, Word::Data(sum), None)
}

pub(crate) fn answer_read(flat: &Flat, me: &Private, rd: u8, rs: u8, n: u64) -> Outcome
    requires registers { (rd < 16) × (rs < 16) }
    requires within { IsWithin flat.now }
    ensures value { result ≡ answer_read flat.now me.now rd rs n }
    ensures fits { CanMake me.now result.effect }
{
    let Word::Cap(cap) = me.here(rs) else {
        return refuse(Refusal::NotCap);
    };
    let view = match view_by(flat, cap, Right::Read) {
        Ok(view) => view,
        Err(refusal) => return refuse(refusal),
    };
    if n >= view.len {
        return refuse(Refusal::Range);
    }
    gives(
        ChangeList::none(),
        rd,
        flat.word(view.seg, (view.base + n) as usize),
        by(
            Place::SegWord {
                uid: Uid(view.seg),
                i: (view.base + n) as u16,
            },
            Right::Read,
        ),
    )
}

pub(crate) fn answer_write(flat: &Flat, me: &Private, rs: u8, n: u64, rv: u8) -> Outcome
    requires registers { (rs < 16) × (rv < 16) }
    requires within { IsWithin flat.now }
    ensures value { result ≡ answer_write flat.now me.now rs n rv }
    ensures fits { CanMake me.now result.effect }
{
    let Word::Cap(cap) = me.here(rs) else {
        return refuse(Refusal::NotCap);
    };
    let view = match view_by(flat, cap, Right::Write) {
        Ok(view) => view,
        Err(refusal) => return refuse(refusal),
    };
    if n >= view.len {
        return refuse(Refusal::Range);
    }
    let word = me.here(rv);
    if let Some(bit) = barred(view.guard, word) {
        return refuse(Refusal::Guarded(bit));
    }
    does(
        ChangeList::one(Change::PutWord {
            uid: view.seg,
            i: (view.base + n) as u16,
            word,
        }),
        own(reg_place(me, rv)),
    )
}

pub(crate) fn answer_window(
    flat: &Flat,
    me: &Private,
    rd: u8,
    rs: u8,
    base: u64,
    len: u64,
) -> Outcome
    requires registers { (rd < 16) × (rs < 16) }
    requires within { IsWithin flat.now }
    ensures value { result ≡ answer_window flat.now me.now rd rs base len }
    ensures fits { CanMake me.now result.effect }
{
    let Word::Cap(cap) = me.here(rs) else {
        return refuse(Refusal::NotCap);
    };
    let view = match view_by(flat, cap, Right::Window) {
        Ok(view) => view,
        Err(refusal) => return refuse(refusal),
    };
    if !fits_in(&view, base, len) {
        return refuse(Refusal::Range);
    }
    if flat.windows.len() >= MOST_WINDOWS {
        return refuse(Refusal::Exhausted(Tab::Windows));
    }
    gives(
        ChangeList::two(
            Change::MakeWindow {
                uid: flat.next,
                row: part_of(&view, base, len),
            },
            Change::Fresh,
        ),
        rd,
        Word::Cap(capability(flat.next, cap.rights())),
        None,
    )
}

pub(crate) fn answer_length(flat: &Flat, me: &Private, rd: u8, rs: u8) -> Outcome
    requires registers { (rd < 16) × (rs < 16) }
    requires within { IsWithin flat.now }
    ensures value { result ≡ answer_length flat.now me.now rd rs }
    ensures fits { CanMake me.now result.effect }
{
    let Word::Cap(cap) = me.here(rs) else {
        return refuse(Refusal::NotCap);
    };
    let view = match view_by(flat, cap, Right::Read) {
        Ok(view) => view,
        Err(refusal) => return refuse(refusal),
    };
    gives(ChangeList::none(), rd, Word::Data(view.len), None)
}

// Whether it is a part of a view, with at least one word.
fn fits_in(view: &FlatView, base: u64, len: u64) -> bool
    ensures { result ≡ fits_in (as_view view.now) base len }
{
    if len == 0 || base > view.len {
        return false;
    }
    len <= view.len - base
}

// That part as a window.
fn part_of(view: &FlatView, base: u64, len: u64) -> WinRow
    requires fits { fits_in (as_view view.now) base len ≡ true }
    requires small { view.now.base + view.now.len ≤ MOST_WORDS }
    ensures { result ≡ part_of (as_view view.now) base len }
{
    WinRow {
        seg: Uid(view.seg),
        base: (view.base + base) as u16,
        len: len as u16,
    }
}
