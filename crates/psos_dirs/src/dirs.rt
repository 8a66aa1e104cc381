// Directories.
ghost use Rattle.std.specs.Prelude.{◌≡◌, IfOk, IfErr, OnOk, OnErr, alloc_error};
ghost use Rattle.std.specs.FinMap.{empty};
ghost use Rattle.psos_calls.specs.declared.level.Level.TheVariants.{L10};
ghost use Rattle.psos_calls.specs.Levels.{AddsRowAt};
ghost use Rattle.psos_calls.specs.Levels.Answers.{with_any_page};
ghost use Rattle.psos_calls.specs.Levels.Level10.{dir_at, act10, Can10};

use psos_calls::{Kind, LevelAnswer, LevelCall, LevelFault, NoPage, Refusal, Right, has};
use psos_caps::{Cap, Rights};
use psos_table::Table;
use std::alloc::{AllocError, Global};
use std::marker::Model;

/// The live directories by identifier, each with its guard (docs/levels.md, "Levels"). They are seen as a finite map.
#[derive(Drop)]
pub struct Dirs {
    guards: Table<Rights>,
}

impl Model for Dirs {
    ghost use Rattle.std.specs.Coded.{coded_ℕ};
    ghost use Rattle.std.specs.FinMap as map;
    ghost use Rattle.psos_calls.specs.Levels.Level10.{DirState};
    ghost use Rattle.psos_caps.specs.contracts.rights.Rights as rights;

    ghost Value = { DirState };

    ghost coded = { map.code coded_ℕ rights.the_row.coded };

    ghost view = { λ d. d.guards };
}

impl Dirs {
    /// No directory. It takes no memory, so there is no `Err`.
    pub fn new(alloc: Global) -> Result<Dirs, AllocError>
        ensures { result ≡ Ok empty }
    {
        Ok(Dirs {
            guards: Table::new(alloc),
        })
    }

    // The guard of the directory that a capability names, for one who has the right on it.
    fn at(&self, cap: Cap, right: Right) -> LevelAnswer<NoPage>
        ensures { with_any_page result ≡ dir_at self.now cap right }
    {
        let Some(guard) = self.guards.get(cap.uid().0) else {
            return LevelAnswer::No(Refusal::Absent(Kind::Directory));
        };
        if !has(cap, right) {
            return LevelAnswer::No(Refusal::Lacks(right));
        }
        LevelAnswer::Guard(*guard)
    }

    /// Makes a call of level 10 (docs/levels.md, "Calls"): what it leaves and answers are those of `act10`. The
    /// answer tells no page. A refusal is the answer `No`, and changes nothing; a call of another level is answered with
    /// `Done`. `Err` only where memory runs out, in `DirMake` alone: the level is unchanged. Rows take their memory from
    /// the allocator of `new`; `_alloc` stands there since the calls of all levels have one form.
    pub fn act(
        &mut self,
        _alloc: Global,
        call: &LevelCall,
    ) -> Result<LevelAnswer<NoPage>, LevelFault>
        requires { Can10 self.old call.now }
        ensures state { OnOk result (self.new ≡ (act10 self.old call.now).0) }
        ensures answer { IfOk result (λ a. with_any_page a ≡ (act10 self.old call.now).1) }
        ensures unchanged { OnErr result (self.new ≡ self.old) }
        ensures memory { IfErr result (λ fault. fault ≡ LevelFault.Memory alloc_error) }
        ensures adding { OnErr result (AddsRowAt L10 call.now) }
    {
        match *call {
            LevelCall::DirAt { cap, right } => Ok(self.at(cap, right)),
            LevelCall::DirMake { uid, guard } => match self.guards.put(uid.0, guard) {
                Ok(()) => Ok(LevelAnswer::Done),
                Err(error) => Err(LevelFault::Memory(error)),
            },
            LevelCall::DirGone { uid } => {
                self.guards.remove(uid.0);
                Ok(LevelAnswer::Done)
            }
            _ => Ok(LevelAnswer::Done),
        }
    }
}
