// Level 12, and name spaces.
use crate::crossing::crosses;
use crate::report::Report;
use crate::stop::Stop;
use psos_calls::{LevelCall, Path};
use psos_caps::{Cap, Issuer, Rights, Uid};
use psos_procs::{Mailbox, Procs, path_push};
use psos_words::Word;

/// Mailboxes in one, and each by itself, and a name space of four directories.
pub fn show(report: &mut Report) -> Result<(), Stop> {
    report.library(b"psos_procs");
    rows(report)?;
    full_mailbox(report)?;
    parts(report)?;
    joined(report)?;
    path_of_four(report);
    Ok(())
}

fn full(uid: u8) -> Cap {
    Issuer::new(Uid(u64::from(uid))).fresh()
}

fn data(uid: u8, n: u64) -> LevelCall {
    post(full(uid), Word::Data(n))
}

fn post(to: Cap, word: Word) -> LevelCall {
    LevelCall::Post { to, word }
}

fn draw(uid: u64) -> LevelCall {
    LevelCall::Draw { uid: Uid(uid) }
}

fn tell(report: &mut Report, procs: &mut Procs, what: &[u8], call: LevelCall) -> Result<(), Stop> {
    let answer = procs.act(report.alloc(), &call)?;
    report.answer(what, &answer);
    Ok(())
}

// The mailboxes of processes 3 and 7.
fn rows(report: &mut Report) -> Result<(), Stop> {
    let mut procs = Procs::new(report.alloc(), 2)?;
    crosses::<Procs>(&procs);
    let weak = Word::Cap(full(9).restrict(Rights::of(0xfffe)));
    let dumb = full(7).restrict(Rights::of(0xfff7));
    let bare = full(4).restrict(Rights::of(1));
    let whole = Word::Cap(full(9));
    let rows: [(&[u8], LevelCall); 14] = [
        (b"draw of 7", draw(7)),
        (b"post data 70 to 7", data(7, 70)),
        (b"post data 30 to 3", data(3, 30)),
        (b"post data 71 to 7", data(7, 71)),
        (b"post to 11, no process of two users", data(11, 1)),
        (
            b"post to 4, no process, without the right",
            post(bare, Word::Data(1)),
        ),
        (
            b"post what lacks bit 0 to 7, without the right",
            post(dumb, weak),
        ),
        (b"post what lacks bit 0 to 7", post(full(7), weak)),
        (b"post cap 9 to 7", post(full(7), whole)),
        (b"draw of 7", draw(7)),
        (b"draw of 7", draw(7)),
        (b"draw of 7", draw(7)),
        (b"draw of 7", draw(7)),
        (b"a call of another level", LevelCall::Room),
    ];
    'rows: for (what, call) in rows {
        tell(report, &mut procs, what, call)?;
    }
    Ok(())
}

// Eight words are the most.
fn full_mailbox(report: &mut Report) -> Result<(), Stop> {
    let mut procs = Procs::new(report.alloc(), 2)?;
    tell(report, &mut procs, b"post data 30 to 3", data(3, 30))?;
    'words: for n in 0..7 {
        tell(report, &mut procs, b"post one more to 3", data(3, n))?;
    }
    tell(report, &mut procs, b"post one more to 3", data(3, 9))?;
    tell(report, &mut procs, b"draw of 3", draw(3))
}

// The answer of the mailbox that a call is of.
fn pass_on(report: &mut Report, boxes: &mut Vec<Mailbox>, what: &[u8], call: &LevelCall) {
    'boxes: for mailbox in boxes.iter_mut() {
        if mailbox.has_part(call) {
            report.answer(what, &mailbox.act(call));
        }
    }
}

// The mailboxes of processes 3, 7 and 11, each by itself.
fn parts(report: &mut Report) -> Result<(), Stop> {
    let mut boxes = Procs::new(report.alloc(), 3)?.split(report.alloc())?;
    crosses::<Vec<Mailbox>>(&boxes);
    report.number(b"mailboxes", boxes.len() as u64);
    pass_on(report, &mut boxes, b"post data 5 to 11", &data(11, 5));
    pass_on(report, &mut boxes, b"post data 6 to 15", &data(15, 6));
    pass_on(report, &mut boxes, b"draw of 11", &draw(11));
    pass_on(report, &mut boxes, b"draw of 7", &draw(7));
    Ok(())
}

// Mailboxes that are parted and joined again.
fn joined(report: &mut Report) -> Result<(), Stop> {
    let mut procs = Procs::new(report.alloc(), 3)?;
    tell(report, &mut procs, b"post data 5 to 11", data(11, 5))?;
    let boxes = procs.split(report.alloc())?;
    let mut again = Procs::join(boxes);
    tell(report, &mut again, b"draw of 11, joined again", draw(11))
}

// The directories that a name space takes.
fn path_of_four(report: &mut Report) {
    let mut path = Path::new();
    'directories: for uid in 1..6 {
        match path_push(&mut path, full(uid)) {
            Ok(()) => report.truth(b"one more directory", true),
            Err(refusal) => report.refusal(b"one more directory", refusal),
        }
    }
    report.number(b"directories", path.len() as u64);
}
