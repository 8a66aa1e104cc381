// The levels together, and the users' own parts.
ghost use Rattle.std.specs.Prelude.{◌≡◌, ◌≤◌, ◌-◌, ◌<◌, ◌^◌, false, IfOk, IfErr, OnErr};
ghost use Rattle.psos_io.specs.Causes.{HasCause};
ghost use Rattle.psos_calls.specs.Levels.{level_of, act as act_of, act0, Can};
ghost use Rattle.psos_calls.specs.Levels.Answers.{with_any_page};
ghost use Rattle.psos_calls.specs.Levels.Level7.{reads_page};
ghost use Rattle.psos_core.specs.System.{levels_of};
ghost use Rattle.psos_core.specs.Faults.{IsLicensed, CanFault};

use arrayvec::ArrayVec;
use psos_calls::{Level, LevelAnswer, LevelCall, LevelFault, NoPage, Private};
use psos_caps::Issuer;
use psos_codes::Codes;
use psos_dirs::Dirs;
use psos_io::Store;
use psos_life::Life;
use psos_pages::Pages;
use psos_procs::Procs;
use psos_segs::Segs;
use psos_types::Types;
use std::alloc::Global;

/// The states of all levels, with the backing store beneath level 7, and the users' own parts in the order of the
/// script.
#[derive(Drop)]
pub struct Levels<B: Store> {
    /// Level 0.
    pub issuer: Issuer,
    /// Level 7.
    pub pages: Pages<B>,
    /// Level 8.
    pub segs: Segs,
    /// Level 9.
    pub types: Types,
    /// Level 10.
    pub dirs: Dirs,
    /// Level 11.
    pub life: Life,
    /// Level 12.
    pub procs: Procs,
    /// Level 13.
    pub codes: Codes,
    /// In the order of the script: on the heap, since levels are moved as a whole.
    pub privates: Box<ArrayVec<Private, 8>>,
}

/// Makes a call of level 0 (docs/levels.md, "Calls"): the next identifier with all rights, and the next rises by one.
/// It takes no memory.
pub fn act_issuer(issuer: &mut Issuer, call: &LevelCall) -> LevelAnswer<NoPage>
    requires { issuer.old < 2 ^ 64 - 1 }
    ensures { (issuer.new, with_any_page result) ≡ act0 issuer.old call.now }
{
    let _call = call;
    LevelAnswer::New(issuer.fresh())
}

impl<B: Store> Levels<B> {
    /// Makes a call of its level, where its condition holds (docs/levels.md, "Calls"), other than the one that reads a
    /// page: what is answered tells no page, and takes no room for one. Else it is `act`.
    pub fn answer(
        &mut self,
        alloc: Global,
        level: Level,
        call: &LevelCall,
    ) -> Result<LevelAnswer<NoPage>, LevelFault>
        requires level { level_of call.now ≡ level }
        requires can { Can (levels_of self.old) call.now }
        requires no_page { reads_page call.now ≡ false }
        ensures made { IfOk result (λ answer. (levels_of self.new, with_any_page answer) ≡ act_of (levels_of self.old) call.now) }
        ensures kept { OnErr result (levels_of self.new ≡ levels_of self.old) }
        ensures privates { self.new.privates ≡ self.old.privates }
        ensures cause { IsLicensed (B.faults self.old.pages.store) (B.faults self.new.pages.store) result }
        ensures fault { IfErr result (CanFault call.now) }
    {
        match level {
            Level::L13 => self.codes.act(alloc, call),
            Level::L12 => self.procs.act(alloc, call),
            Level::L11 => self.life.act(alloc, call),
            Level::L10 => self.dirs.act(alloc, call),
            Level::L9 => self.types.act(alloc, call),
            Level::L8 => self.segs.act(alloc, call),
            Level::L7 => self.pages.answer(alloc, call),
            Level::L0 => Ok(act_issuer(&mut self.issuer, call)),
        }
    }

    /// Makes a call of its level, where its condition holds (docs/levels.md, "Calls"). A refusal is an answer, and
    /// changes nothing. A fault leaves all levels as they were: want of memory, only of a call that adds a row, or
    /// `Store`, only of a call of level 7 in which the store's count of faults rose.
    pub fn act(
        &mut self,
        alloc: Global,
        level: Level,
        call: &LevelCall,
    ) -> Result<LevelAnswer, LevelFault>
        requires level { level_of call.now ≡ level }
        requires can { Can (levels_of self.old) call.now }
        ensures made { IfOk result (λ answer. (levels_of self.new, answer) ≡ act_of (levels_of self.old) call.now) }
        ensures kept { OnErr result (levels_of self.new ≡ levels_of self.old) }
        ensures privates { self.new.privates ≡ self.old.privates }
        ensures cause { IsLicensed (B.faults self.old.pages.store) (B.faults self.new.pages.store) result }
        ensures fault { IfErr result (CanFault call.now) }
    {
        if let LevelCall::PageGet { .. } = call {
            return self.pages.act(alloc, call);
        }
        let answer = self.answer(alloc, level, call)?;
        Ok(answer.with_any_page())
    }
}
