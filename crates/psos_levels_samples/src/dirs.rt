// Level 10.
ghost use Rattle.std.specs.Prelude.{◌≡◌, OnOk};
ghost use Rattle.psos_calls.specs.Levels.Level10.{Can10, act10};

use crate::crossing::crosses;
use crate::report::Report;
use crate::stop::Stop;
use psos_calls::{LevelCall, Right};
use psos_caps::{Issuer, Rights, Uid};
use psos_dirs::Dirs;

// The answer to a call is told.
fn ask(report: &mut Report, dirs: &mut Dirs, what: &[u8], call: LevelCall) -> Result<(), Stop>
    requires { Can10 dirs.old call }
    ensures { OnOk result (dirs.new ≡ (act10 dirs.old call).0) }
{
    let answer = dirs.act(report.alloc(), &call)?;
    report.answer(what, &answer);
    Ok(())
}

/// One directory, from its making to its end.
#[tactic(auto, using(crate::proofs::FoundRows::tables))]
pub fn show(report: &mut Report) -> Result<(), Stop> {
    report.library(b"psos_dirs");
    let mut dirs = Dirs::new(report.alloc())?;
    crosses::<Dirs>(&dirs);
    let dirs = &mut dirs;
    let uid = Uid(7);
    let guard = Rights::of(6);
    let cap = Issuer::new(uid).fresh();
    let lookup = cap.restrict(Rights::of(8));
    let right = Right::Bind;
    let at_lookup = LevelCall::DirAt { cap: lookup, right };
    ask(
        report,
        dirs,
        b"make 7 with guard 6",
        LevelCall::DirMake { uid, guard },
    )?;
    ask(
        report,
        dirs,
        b"at 7 for bind",
        LevelCall::DirAt { cap, right },
    )?;
    ask(report, dirs, b"at 7 for bind, with lookup alone", at_lookup)?;
    ask(report, dirs, b"7 goes", LevelCall::DirGone { uid })?;
    ask(report, dirs, b"at 7 for bind, with lookup alone", at_lookup)?;
    ask(report, dirs, b"a call of another level", LevelCall::Hold11)
}
