// Level 11.
ghost use Rattle.std.specs.Prelude.{◌≡◌, OnOk};
ghost use Rattle.psos_calls.specs.Levels.Level11.{Can11, act11};

use crate::crossing::crosses;
use crate::report::Report;
use crate::stop::Stop;
use psos_calls::{Kind, LevelAnswer, LevelCall};
use psos_caps::Uid;
use psos_life::Life;

/// One user object, and then as many as there may be.
pub fn show(report: &mut Report) -> Result<(), Stop> {
    report.library(b"psos_life");
    one_object(report)?;
    all_objects(report)
}

// The answer to a call is told.
fn ask(report: &mut Report, life: &mut Life, what: &[u8], call: LevelCall) -> Result<(), Stop>
    requires { Can11 life.old call }
    ensures { OnOk result (life.new ≡ (act11 life.old call).0) }
{
    let answer = life.act(report.alloc(), &call)?;
    report.answer(what, &answer);
    Ok(())
}

#[tactic(auto, using(crate::proofs::FoundRows::tables))]
fn one_object(report: &mut Report) -> Result<(), Stop> {
    let mut life = Life::new(report.alloc())?;
    crosses::<Life>(&life);
    let life = &mut life;
    let uid = Uid(7);
    let kind = Kind::Typ;
    ask(
        report,
        life,
        b"enrol 7, a type",
        LevelCall::Enrol { uid, kind },
    )?;
    ask(report, life, b"kind of 7", LevelCall::KindOf { uid })?;
    ask(report, life, b"forget 7", LevelCall::Forget { uid })?;
    ask(report, life, b"hold", LevelCall::Hold11)
}

// Whether there is room, and then one more.
fn enrol(report: &mut Report, life: &mut Life, uid: Uid) -> Result<bool, Stop>
    requires { Can11 life.old (LevelCall.Enrol uid Kind.Object) }
    ensures { OnOk result (life.new ≡ (act11 life.old (LevelCall.Enrol uid Kind.Object)).0) }
{
    let room = life.act(report.alloc(), &LevelCall::Room)?;
    let kind = Kind::Object;
    life.act(report.alloc(), &LevelCall::Enrol { uid, kind })?;
    Ok(matches!(room, LevelAnswer::Done))
}

fn all_objects(report: &mut Report) -> Result<(), Stop> {
    let mut life = Life::new(report.alloc())?;
    let mut rooms = 0u64;
    'uids: for uid in 0..512 {
        let has_room = enrol(report, &mut life, Uid(uid))?;
        rooms = rooms.saturating_add(u64::from(has_room));
    }
    report.number(b"enrolled where there was room", rooms);
    ask(report, &mut life, b"room for one more", LevelCall::Room)
}
