// Level 8.
use crate::crossing::crosses;
use crate::report::Report;
use crate::stop::Stop;
use psos_calls::{LevelAnswer, LevelCall, NoPage, Right};
use psos_caps::{Cap, Issuer, Rights, Uid};
use psos_segs::Segs;
use psos_words::Word;

/// Windows over windows, each refusal, and as many windows as there may be.
pub fn show(report: &mut Report) -> Result<(), Stop> {
    report.library(b"psos_segs");
    through_windows(report)?;
    refusals(report)?;
    full(report)
}

// The answer to a call. Its condition holds.
fn ask(report: &mut Report, segs: &mut Segs, call: LevelCall) -> Result<LevelAnswer<NoPage>, Stop> {
    if !segs.can(&call) {
        return Err(Stop);
    }
    Ok(segs.act(report.alloc(), &call)?)
}

fn tell(report: &mut Report, segs: &mut Segs, what: &[u8], call: LevelCall) -> Result<(), Stop> {
    let answer = ask(report, segs, call)?;
    report.answer(what, &answer);
    Ok(())
}

fn make(uid: Uid, slot: u16, len: u16, guard: u16) -> LevelCall {
    LevelCall::SegMake {
        uid,
        slot,
        len,
        guard: Rights::of(guard),
    }
}

fn locate(cap: Cap, off: u64, need: Right, word: Option<Word>) -> LevelCall {
    LevelCall::Locate {
        cap,
        off,
        need,
        word,
    }
}

fn window(uid: Uid, cap: Cap, base: u64, len: u64) -> LevelCall {
    LevelCall::WinMake {
        uid,
        cap,
        base,
        len,
    }
}

fn through_windows(report: &mut Report) -> Result<(), Stop> {
    let mut segs = Segs::new(report.alloc())?;
    crosses::<Segs>(&segs);
    let mut issuer = Issuer::new(Uid(10));
    let whole = issuer.fresh();
    let part = issuer.fresh();
    let inner = issuer.fresh();
    let uid = whole.uid();
    let of_whole = Some(Word::Cap(whole));
    let rows: [(&[u8], LevelCall); 11] = [
        (b"make 10 of 100 words in slot 2", make(uid, 2, 100, 2)),
        (
            b"window 11 over words 50 to 69 of 10",
            window(part.uid(), whole, 50, 20),
        ),
        (
            b"window 12 over words 10 to 14 of 11",
            window(inner.uid(), part, 10, 5),
        ),
        (
            b"locate word 70 of 10",
            locate(whole, 70, Right::Read, None),
        ),
        (
            b"locate word 15 of 11, for data",
            locate(part, 15, Right::Write, Some(Word::Data(5))),
        ),
        (
            b"locate word 3 of 12, for a capability",
            locate(inner, 3, Right::Write, of_whole),
        ),
        (b"length of 11", LevelCall::Length { cap: part }),
        (b"slot of 10", LevelCall::SlotOf { uid }),
        (b"10 goes", LevelCall::SegGone { uid }),
        (b"locate word 3 of 12", locate(inner, 3, Right::Read, None)),
        (b"a call of another level", LevelCall::Hold11),
    ];
    'rows: for (what, call) in rows {
        tell(report, &mut segs, what, call)?;
    }
    Ok(())
}

// A segment of 512 words in the last slot, with a window over its last 12.
fn refusals(report: &mut Report) -> Result<(), Stop> {
    let mut segs = Segs::new(report.alloc())?;
    let mut issuer = Issuer::new(Uid(10));
    let whole = issuer.fresh();
    let part = issuer.fresh();
    let unknown = issuer.fresh();
    let weak = whole.restrict(Rights::of(1));
    let of_weak = Some(Word::Cap(weak));
    let rows: [(&[u8], LevelCall); 8] = [
        (
            b"make 10 of 512 words in slot 520",
            make(whole.uid(), 520, 512, 2),
        ),
        (
            b"window 11 over its words from 500 on",
            window(part.uid(), whole, 500, 12),
        ),
        (
            b"locate word 0 of 12",
            locate(unknown, 0, Right::Read, None),
        ),
        (
            b"locate word 512 of 10 without rights",
            locate(weak, 512, Right::Read, None),
        ),
        (
            b"locate word 12 of 11, for a capability with right 0 alone",
            locate(part, 12, Right::Write, of_weak),
        ),
        (
            b"locate word 11 of 11, for a capability with right 0 alone",
            locate(part, 11, Right::Write, of_weak),
        ),
        (b"length of 12", LevelCall::Length { cap: unknown }),
        (
            b"length of 10 without rights",
            LevelCall::Length { cap: weak },
        ),
    ];
    'rows: for (what, call) in rows {
        tell(report, &mut segs, what, call)?;
    }
    rooms(report, &mut segs, [unknown, weak, part])
}

// Whether windows may be made.
fn rooms(report: &mut Report, segs: &mut Segs, caps: [Cap; 3]) -> Result<(), Stop> {
    let [unknown, weak, part] = caps;
    let rows: [(&[u8], Cap, u64, u64); 7] = [
        (b"a window over word 0 of 12", unknown, 0, 1),
        (b"a window over no word of 10 without rights", weak, 0, 0),
        (b"a window over no word of 11", part, 0, 0),
        (b"a window over 13 words of 11", part, 0, 13),
        (b"a window over word 12 of 11", part, 12, 1),
        (b"a window over words behind all of 11", part, u64::MAX, 2),
        (b"a window over word 11 of 11", part, 11, 1),
    ];
    'rows: for (what, cap, base, len) in rows {
        tell(report, segs, what, LevelCall::WinRoom { cap, base, len })?;
    }
    Ok(())
}

// Windows over two segments, the first two over the second.
fn full(report: &mut Report) -> Result<(), Stop> {
    let mut segs = Segs::new(report.alloc())?;
    let mut issuer = Issuer::new(Uid(10));
    let first = issuer.fresh();
    let second = issuer.fresh();
    let segs = &mut segs;
    ask(report, segs, make(first.uid(), 0, 1, 0))?;
    ask(report, segs, make(second.uid(), 1, 1, 0))?;
    let mut rooms = 0u64;
    'windows: for n in 0..256 {
        let of = if n < 2 { second } else { first };
        if matches!(ask(report, segs, room(of))?, LevelAnswer::Done) {
            rooms = rooms.saturating_add(1);
        }
        ask(report, segs, window(Uid(100 + n), of, 0, 1))?;
    }
    report.number(b"windows where there was room", rooms);
    tell(report, segs, b"room for one more", room(second))?;
    let gone = LevelCall::SegGone { uid: first.uid() };
    tell(report, segs, b"10 goes, with 254 windows", gone)?;
    tell(report, segs, b"room for one more", room(second))
}

// Whether a window over one word may be made.
fn room(cap: Cap) -> LevelCall {
    LevelCall::WinRoom {
        cap,
        base: 0,
        len: 1,
    }
}
