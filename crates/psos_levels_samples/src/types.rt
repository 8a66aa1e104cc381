// Level 9.
ghost use Rattle.std.specs.Prelude.{◌≡◌, ◌<◌, OnOk};
ghost use Rattle.psos_caps.specs.Capability.{full};
ghost use Rattle.psos_calls.specs.Levels.Level9.{Can9, act9};

use crate::crossing::crosses;
use crate::report::Report;
use crate::stop::Stop;
use psos_calls::LevelCall;
use psos_caps::{Cap, Issuer, Rights, Uid};
use psos_types::Types;

/// A type with an object, the rights that its calls need, and who may open an object.
pub fn show(report: &mut Report) -> Result<(), Stop> {
    report.library(b"psos_types");
    rows(report)?;
    rights(report)?;
    let mut types = two_objects(report)?;
    implementations(report, &mut types)?;
    refusals(report, &mut types)
}

fn full(uid: u64) -> Cap
    requires { uid < 100 }
    ensures { result ≡ full uid }
{
    Issuer::new(Uid(uid)).fresh()
}

// The answer to a call is told.
fn ask(report: &mut Report, types: &mut Types, what: &[u8], call: LevelCall) -> Result<(), Stop>
    requires { Can9 types.old call }
    ensures { OnOk result (types.new ≡ (act9 types.old call).0) }
{
    let answer = types.act(report.alloc(), &call)?;
    report.answer(what, &answer);
    Ok(())
}

#[tactic(auto, using(crate::proofs::FoundRows::tables))]
fn rows(report: &mut Report) -> Result<(), Stop> {
    let mut types = Types::new(report.alloc())?;
    crosses::<Types>(&types);
    let types = &mut types;
    let uid = Uid(7);
    let of = Some(uid);
    let rep = full(80);
    let on = Uid(8);
    let make = LevelCall::ObjMake { uid: on, of, rep };
    ask(report, types, b"make type 7", LevelCall::TypeMake { uid })?;
    ask(report, types, b"make object 8 of type 7, on 80", make)?;
    ask(
        report,
        types,
        b"representation of 8",
        LevelCall::RepOf { uid: on },
    )?;
    ask(
        report,
        types,
        b"object 8 goes",
        LevelCall::ObjGone { uid: on },
    )?;
    ask(report, types, b"type 7 goes", LevelCall::TypeGone { uid })?;
    ask(report, types, b"a call of another level", LevelCall::Hold11)
}

#[tactic(auto, using(crate::proofs::FoundRows::tables))]
fn rights(report: &mut Report) -> Result<(), Stop> {
    let mut types = Types::new(report.alloc())?;
    let types = &mut types;
    let cap = full(7);
    let impl_only = LevelCall::TypeAt {
        cap: cap.restrict(Rights::of(0x0010)),
    };
    ask(report, types, b"at type 7", LevelCall::TypeAt { cap })?;
    ask(
        report,
        types,
        b"make type 7",
        LevelCall::TypeMake { uid: Uid(7) },
    )?;
    ask(report, types, b"at type 7", LevelCall::TypeAt { cap })?;
    ask(report, types, b"at type 7, with impl alone", impl_only)
}

// Types 6 and 7, object 8 of type 7, and directory 9. Type 7 cannot go.
#[tactic(auto, using(crate::proofs::FoundRows::several))]
fn two_objects(report: &mut Report) -> Result<Types, Stop> {
    let mut types = Types::new(report.alloc())?;
    let rep = full(80);
    let uid = Uid(7);
    let object = LevelCall::ObjMake {
        uid: Uid(8),
        of: Some(uid),
        rep,
    };
    let directory = LevelCall::ObjMake {
        uid: Uid(9),
        of: None,
        rep,
    };
    ask(
        report,
        &mut types,
        b"make type 6",
        LevelCall::TypeMake { uid: Uid(6) },
    )?;
    ask(
        report,
        &mut types,
        b"make type 7",
        LevelCall::TypeMake { uid },
    )?;
    ask(
        report,
        &mut types,
        b"make object 8 of type 7, on 80",
        object,
    )?;
    ask(report, &mut types, b"make directory 9, on 80", directory)?;
    ask(
        report,
        &mut types,
        b"type 7 goes",
        LevelCall::TypeGone { uid },
    )?;
    Ok(types)
}

// An object is opened. This call has no condition.
fn open(report: &mut Report, types: &mut Types, what: &[u8], of: Cap, on: Cap) -> Result<(), Stop> {
    ask(report, types, what, LevelCall::Impl { of, on })
}

fn implementations(report: &mut Report, types: &mut Types) -> Result<(), Stop> {
    let of = full(7);
    let on = full(8);
    let weak = of.restrict(Rights::of(0x0010));
    let lacking = weak.restrict(Rights::of(0x000f));
    open(report, types, b"open 8 by type 7", of, on)?;
    open(report, types, b"open 8 by 8", on, on)?;
    open(
        report,
        types,
        b"open 8 by type 7, with impl alone",
        weak,
        on,
    )?;
    open(
        report,
        types,
        b"open 8 by type 7, without impl",
        lacking,
        on,
    )
}

fn refusals(report: &mut Report, types: &mut Types) -> Result<(), Stop> {
    let of = full(7).restrict(Rights::of(0x0010));
    open(report, types, b"open 7 by type 7", of, of)?;
    open(report, types, b"open directory 9 by type 7", of, full(9))?;
    open(report, types, b"open 8 by type 6", full(6), full(8))
}
