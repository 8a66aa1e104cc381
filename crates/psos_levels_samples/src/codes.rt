// Level 13.
ghost use Rattle.std.specs.Prelude.{◌≡◌, OnOk};
ghost use Rattle.psos_calls.specs.Levels.Level13.{Can13, act13};

use crate::crossing::crosses;
use crate::report::Report;
use crate::stop::Stop;
use psos_calls::LevelCall;
use psos_caps::{Issuer, Rights, Uid};
use psos_codes::Codes;
use psos_words::Word;

/// One procedure record, and what may be a linkage.
pub fn show(report: &mut Report) -> Result<(), Stop> {
    report.library(b"psos_codes");
    one_record(report)?;
    linkages(report)
}

// The answer to a call is told.
fn ask(report: &mut Report, codes: &mut Codes, what: &[u8], call: LevelCall) -> Result<(), Stop>
    requires { Can13 codes.old call }
    ensures { OnOk result (codes.new ≡ (act13 codes.old call).0) }
{
    let answer = codes.act(report.alloc(), &call)?;
    report.answer(what, &answer);
    Ok(())
}

#[tactic(auto, using(crate::proofs::FoundRows::tables))]
fn one_record(report: &mut Report) -> Result<(), Stop> {
    let mut codes = Codes::new(report.alloc())?;
    crosses::<Codes>(&codes);
    let codes = &mut codes;
    let uid = Uid(7);
    let cap = Issuer::new(uid).fresh();
    let lacking = cap.restrict(Rights::of(0xfff7));
    let label = 3;
    let link = Word::Data(9);
    let make = LevelCall::CodeMake { uid, label, link };
    let enter = LevelCall::Enter { cap: lacking };
    ask(report, codes, b"make 7 of label 3 and linkage data 9", make)?;
    ask(report, codes, b"enter 7", LevelCall::Enter { cap })?;
    ask(report, codes, b"enter 7 without the right", enter)?;
    ask(report, codes, b"7 goes", LevelCall::CodeGone { uid })?;
    ask(report, codes, b"enter 7 without the right", enter)
}

// A record takes data, and capabilities that have bit 0.
fn linkages(report: &mut Report) -> Result<(), Stop> {
    let mut codes = Codes::new(report.alloc())?;
    let codes = &mut codes;
    let cap = Issuer::new(Uid(7)).fresh();
    let passing = Word::Cap(cap.restrict(Rights::of(1)));
    let barred = Word::Cap(cap.restrict(Rights::of(0xfffe)));
    ask(report, codes, b"hold", LevelCall::Hold13)?;
    admit(report, codes, Word::Data(0))?;
    admit(report, codes, passing)?;
    admit(report, codes, barred)
}

fn admit(report: &mut Report, codes: &mut Codes, word: Word) -> Result<(), Stop> {
    report.word(b"linkage", word);
    ask(report, codes, b"admit it", LevelCall::Admit { word })
}
