// The level of segments and windows.
ghost use Rattle.std.specs.Prelude.{◌≡◌, ◌+◌, ◌<◌, ◌≤◌, ◌↔◌, Some, None, Ok, Err, IsTrue, IfOk, IfErr, IfSome, OnOk, OnErr, alloc_error};
ghost use Rattle.std.specs.Option.{option_map};
ghost use Rattle.std.specs.FinMap.{empty};
ghost use Rattle.psos_limits.specs.declared.TheConstants.{SLOTS, MOST_WORDS};
ghost use Rattle.psos_table.specs.Table.{at, put, without, kept};
ghost use Rattle.psos_calls.specs.declared.level.Level.TheVariants.{L8};
ghost use Rattle.psos_calls.specs.Levels.{AddsRowAt};
ghost use Rattle.psos_calls.specs.Levels.Answers.{with_any_page};
ghost use Rattle.psos_calls.specs.Levels.Level8.{SegState, view, slot_of, locate, win_room, win_made, length_of, act8, Can8, IsNew};
ghost use Rattle.psos_calls.specs.Language.Views.{is_not_over};
ghost use Rattle.psos_segs.specs.Within.{as_view};

use crate::over::Over;
use crate::view::{View, barred_by, fits_in};
use psos_calls::{
    Kind, LevelAnswer, LevelCall, LevelFault, NoPage, Refusal, Right, SegRow, Tab, WinRow, has,
};
use psos_caps::{Cap, Uid};
use psos_counts::Counted;
use psos_limits::{MOST_WINDOWS, MOST_WORDS, SLOTS};
use psos_table::Table;
use psos_words::Word;
use std::alloc::{AllocError, Global};
use std::marker::Model;

/// Level 8: the live segments, each with its slot, length and guard, and the live windows over them. It is seen as
/// these two finite maps, by identifier (docs/levels.md, "Levels").
#[derive(Drop)]
pub struct Segs {
    segments: Table<SegRow>,
    windows: Counted<WinRow, Over>,
}

impl Model for Segs {
    ghost use Rattle.psos_calls.specs.Levels.Level8.{SegState};
    ghost use Rattle.psos_segs.specs.Within.{AreWithin};
    ghost use Rattle.psos_segs.specs.Codes.{seg_state_code};

    ghost Value = { SegState };

    ghost coded = { seg_state_code };

    ghost view = { λ a. record { segments = a.segments; windows = a.windows } };

    ghost invariant = { λ a. AreWithin a.segments a.windows };
}

impl Segs {
    /// No segment and no window. It takes no memory, so there is no `Err`.
    pub fn new(alloc: Global) -> Result<Segs, AllocError>
        ensures { result ≡ Ok (record { segments = empty; windows = empty }) }
    {
        Ok(Segs {
            segments: Table::new(alloc),
            windows: Counted::new(alloc),
        })
    }

    /// Whether the condition of a call of level 8 holds (docs/levels.md, "Calls"). It is true of every other call.
    pub fn can(&self, call: &LevelCall) -> bool
        ensures { IsTrue result ↔ Can8 self.now call.now }
    {
        match *call {
            LevelCall::SlotOf { uid } | LevelCall::SegGone { uid } => self.segments.has(uid.0),
            LevelCall::SegMake { uid, slot, len, .. } => self.is_new(uid)
                && is_in_bounds(slot, len),
            LevelCall::WinMake {
                uid,
                cap,
                base,
                len,
            } => self.is_new(uid) && matches!(self.room(cap, base, len), LevelAnswer::Done),
            _ => true,
        }
    }

    /// Makes a call of level 8, where its condition holds: `Locate`, `SlotOf`, `SegMake`, `SegGone`, `WinRoom`,
    /// `WinMake` or `Length` (docs/levels.md, "Calls"). The answer tells no page. A refusal is the answer `No` and
    /// changes nothing. `Err` only where memory runs out, in `SegMake` and `WinMake` alone: the level is unchanged. Rows
    /// take their memory from the allocator of `new`; `_alloc` stands there since the calls of all levels have one form.
    pub fn act(
        &mut self,
        _alloc: Global,
        call: &LevelCall,
    ) -> Result<LevelAnswer<NoPage>, LevelFault>
        requires { Can8 self.old call.now }
        ensures ok { IfOk result (λ answer. (self.new, with_any_page answer) ≡ act8 self.old call.now) }
        ensures err { OnErr result (self.new ≡ self.old) }
        ensures memory { IfErr result (λ fault. fault ≡ LevelFault.Memory alloc_error) }
        ensures cause { OnErr result (AddsRowAt L8 call.now) }
    {
        match *call {
            LevelCall::Locate {
                cap,
                off,
                need,
                word,
            } => Ok(self.locate(cap, off, need, word)),
            LevelCall::SlotOf { uid } => Ok(LevelAnswer::Slot(self.slot_of(uid))),
            LevelCall::SegMake {
                uid,
                slot,
                len,
                guard,
            } => done(self.make(uid, SegRow { slot, len, guard })),
            LevelCall::SegGone { uid } => Ok(LevelAnswer::Slot(self.remove(uid))),
            LevelCall::WinRoom { cap, base, len } => Ok(self.room(cap, base, len)),
            LevelCall::WinMake {
                uid,
                cap,
                base,
                len,
            } => done(self.make_window(uid, cap, base, len)),
            LevelCall::Length { cap } => Ok(self.length(cap)),
            _ => Ok(LevelAnswer::Done),
        }
    }

    // Whether this is neither a live segment nor a live window.
    fn is_new(&self, uid: Uid) -> bool
        ensures { IsTrue result ↔ IsNew self.now uid.0 }
    {
        !self.segments.has(uid.0) && !self.windows.has(uid.0)
    }

    // The words that an identifier leads to.
    fn view(&self, uid: Uid) -> Option<View>
        ensures is { option_map as_view result ≡ view self.now uid.0 }
        ensures row { IfSome result (λ v. at self.now.segments v.seg.0 ≡ Some v.row) }
        ensures slot { IfSome result (λ v. v.row.slot < SLOTS) }
        ensures within { IfSome result (λ v. v.base + v.len ≤ MOST_WORDS) }
    {
        if let Some(row) = self.segments.get(uid.0) {
            return Some(View {
                seg: uid,
                row: *row,
                base: 0,
                len: row.len,
            });
        }
        let window = self.windows.get(uid.0)?;
        let row = self.segments.get(window.seg.0)?;
        Some(View {
            seg: window.seg,
            row: *row,
            base: window.base,
            len: window.len,
        })
    }

    // The slot of a live segment.
    fn slot_of(&self, uid: Uid) -> u16
        ensures { result ≡ slot_of self.now uid.0 }
    {
        match self.segments.get(uid.0) {
            Some(row) => row.slot,
            None => 0,
        }
    }

    // Where a word lies, or why the capability does not lead there.
    fn locate(&self, cap: Cap, off: u64, need: Right, word: Option<Word>) -> LevelAnswer<NoPage>
        ensures { with_any_page result ≡ locate self.now cap off need word }
    {
        let Some(view) = self.view(cap.uid()) else {
            return LevelAnswer::No(Refusal::Absent(Kind::Segment));
        };
        if !has(cap, need) {
            return LevelAnswer::No(Refusal::Lacks(need));
        }
        if off >= u64::from(view.len) {
            return LevelAnswer::No(Refusal::Range);
        }
        if let Some(bit) = barred_by(view.row.guard, word) {
            return LevelAnswer::No(Refusal::Guarded(bit));
        }
        let i = view.base + off as u16;
        LevelAnswer::At {
            page: 8 * view.row.slot + i / 64,
            off: (i % 64) as u8,
        }
    }

    // A new segment. `Err` only where memory runs out: the level is unchanged.
    fn make(&mut self, uid: Uid, row: SegRow) -> Result<(), AllocError>
        requires slot { row.slot < SLOTS }
        requires len { row.len ≤ MOST_WORDS }
        ensures ok { OnOk result (self.new ≡ record self.old { segments = put self.old.segments uid.0 row }) }
        ensures err { OnErr result (self.new ≡ self.old) }
    {
        self.segments.put(uid.0, row)?;
        Ok(())
    }

    // A segment goes, with every window over it.
    fn remove(&mut self, uid: Uid) -> u16
        ensures slot { result ≡ slot_of self.old uid.0 }
        ensures gone { self.new ≡ record { segments = without self.old.segments uid.0; windows = kept (is_not_over uid.0) self.old.windows } }
    {
        let slot = self.slot_of(uid);
        self.segments.remove(uid.0);
        self.windows.drop_class(uid.0);
        slot
    }

    // Whether a window may be made, or why not.
    fn room(&self, cap: Cap, base: u64, len: u64) -> LevelAnswer<NoPage>
        ensures { with_any_page result ≡ win_room self.now cap base len }
    {
        let Some(view) = self.view(cap.uid()) else {
            return LevelAnswer::No(Refusal::Absent(Kind::Segment));
        };
        if !has(cap, Right::Window) {
            return LevelAnswer::No(Refusal::Lacks(Right::Window));
        }
        if !fits_in(view, base, len) {
            return LevelAnswer::No(Refusal::Range);
        }
        if self.windows.len() >= MOST_WINDOWS {
            return LevelAnswer::No(Refusal::Exhausted(Tab::Windows));
        }
        LevelAnswer::Done
    }

    // A new window, where there is room for it. `Err` only where memory runs out: the level is unchanged.
    fn make_window(&mut self, uid: Uid, cap: Cap, base: u64, len: u64) -> Result<(), AllocError>
        requires new { at self.old.windows uid.0 ≡ None }
        requires room { win_room self.old cap base len ≡ LevelAnswer.Done }
        ensures ok { OnOk result (self.new ≡ record self.old { windows = win_made self.old uid.0 cap base len }) }
        ensures err { OnErr result (self.new ≡ self.old) }
    {
        let Some(view) = self.view(cap.uid()) else {
            unreachable!();
        };
        let row = WinRow {
            seg: view.seg,
            base: view.base + base as u16,
            len: len as u16,
        };
        self.windows.put_new(uid.0, row)?;
        Ok(())
    }

    // How many words the capability leads to.
    fn length(&self, cap: Cap) -> LevelAnswer<NoPage>
        ensures { with_any_page result ≡ length_of self.now cap }
    {
        let Some(view) = self.view(cap.uid()) else {
            return LevelAnswer::No(Refusal::Absent(Kind::Segment));
        };
        if !has(cap, Right::Read) {
            return LevelAnswer::No(Refusal::Lacks(Right::Read));
        }
        LevelAnswer::Len(u64::from(view.len))
    }
}

// Whether a segment may have this slot, and so many words.
fn is_in_bounds(slot: u16, len: u16) -> bool
    ensures { IsTrue result ↔ ((slot < SLOTS) × (1 ≤ len) × (len ≤ MOST_WORDS)) }
{
    (slot as usize) < SLOTS && 1 <= len && (len as usize) <= MOST_WORDS
}

// The answer where a row was added, or the fault where there was no memory for it.
fn done(added: Result<(), AllocError>) -> Result<LevelAnswer<NoPage>, LevelFault>
    ensures ok { OnOk added (result ≡ Ok LevelAnswer.Done) }
    ensures err { OnErr added (result ≡ Err (LevelFault.Memory alloc_error)) }
{
    match added {
        Ok(()) => Ok(LevelAnswer::Done),
        Err(error) => Err(LevelFault::Memory(error)),
    }
}
