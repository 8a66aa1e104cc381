// User objects.
ghost use Rattle.std.specs.Prelude.{◌≡◌, IfOk, IfErr, OnOk, OnErr, alloc_error};
ghost use Rattle.std.specs.FinMap.{empty};
ghost use Rattle.psos_calls.specs.declared.level.Level.TheVariants.{L11};
ghost use Rattle.psos_calls.specs.Levels.{AddsRowAt};
ghost use Rattle.psos_calls.specs.Levels.Answers.{with_any_page};
ghost use Rattle.psos_calls.specs.Levels.Level11.{room, act11, Can11};

use psos_calls::{Kind, LevelAnswer, LevelCall, LevelFault, NoPage, Refusal, Tab};
use psos_limits::MOST_OBJECTS;
use psos_table::Table;
use std::alloc::{AllocError, Global};
use std::marker::Model;

/// The live user objects by identifier, each with its kind: at most 512 (docs/levels.md, "Levels"). They are seen as
/// a finite map.
#[derive(Drop)]
pub struct Life {
    kinds: Table<Kind>,
}

impl Model for Life {
    ghost use Rattle.std.specs.Coded.{coded_ℕ};
    ghost use Rattle.std.specs.FinMap as map;
    ghost use Rattle.psos_calls.specs.Levels.Level11.{LifeState};
    ghost use Rattle.psos_calls.specs.contracts.kind.Kind as kind;

    ghost Value = { LifeState };

    ghost coded = { map.code coded_ℕ kind.the_row.coded };

    ghost view = { λ l. l.kinds };
}

impl Life {
    /// No user object. It takes no memory, so there is no `Err`.
    pub fn new(alloc: Global) -> Result<Life, AllocError>
        ensures { result ≡ Ok empty }
    {
        Ok(Life {
            kinds: Table::new(alloc),
        })
    }

    // Whether one more may be enrolled.
    fn room(&self) -> LevelAnswer<NoPage>
        ensures { with_any_page result ≡ room self.now }
    {
        if self.kinds.len() < MOST_OBJECTS {
            LevelAnswer::Done
        } else {
            LevelAnswer::No(Refusal::Exhausted(Tab::Objects))
        }
    }

    /// Makes a call of level 11 (docs/levels.md, "Calls"): what it leaves and answers are those of `act11`. The
    /// answer tells no page. A refusal is the answer `No`, and changes nothing; a call of another level is answered with
    /// `Done`. `Err` only where memory runs out, in `Enrol` alone: the level is unchanged. Rows take their memory from the
    /// allocator of `new`; `_alloc` stands there since the calls of all levels have one form.
    pub fn act(
        &mut self,
        _alloc: Global,
        call: &LevelCall,
    ) -> Result<LevelAnswer<NoPage>, LevelFault>
        requires { Can11 self.old call.now }
        ensures state { OnOk result (self.new ≡ (act11 self.old call.now).0) }
        ensures answer { IfOk result (λ a. with_any_page a ≡ (act11 self.old call.now).1) }
        ensures unchanged { OnErr result (self.new ≡ self.old) }
        ensures memory { IfErr result (λ fault. fault ≡ LevelFault.Memory alloc_error) }
        ensures adding { OnErr result (AddsRowAt L11 call.now) }
    {
        match *call {
            LevelCall::Room => Ok(self.room()),
            LevelCall::Enrol { uid, kind } => match self.kinds.put(uid.0, kind) {
                Ok(()) => Ok(LevelAnswer::Done),
                Err(error) => Err(LevelFault::Memory(error)),
            },
            LevelCall::KindOf { uid } => {
                let kind = self.kinds.get(uid.0).copied();
                Ok(LevelAnswer::Is(kind.unwrap_or(Kind::Segment)))
            }
            LevelCall::Forget { uid } => {
                self.kinds.remove(uid.0);
                Ok(LevelAnswer::Done)
            }
            _ => Ok(LevelAnswer::Done),
        }
    }
}
