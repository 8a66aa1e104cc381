// Procedure records.
ghost use Rattle.std.specs.Prelude.{◌≡◌, IfOk, IfErr, OnOk, OnErr, alloc_error};
ghost use Rattle.std.specs.FinMap.{empty};
ghost use Rattle.psos_calls.specs.declared.level.Level.TheVariants.{L13};
ghost use Rattle.psos_calls.specs.Levels.{AddsRowAt};
ghost use Rattle.psos_calls.specs.Levels.Answers.{with_any_page};
ghost use Rattle.psos_calls.specs.Levels.Level13.{admitted, entered, act13, Can13};

use psos_calls::{CodeRow, Kind, LevelAnswer, LevelCall, LevelFault, NoPage, Refusal, Right, has};
use psos_caps::{Cap, Rights};
use psos_guards::admits;
use psos_table::Table;
use psos_words::Word;
use std::alloc::{AllocError, Global};
use std::marker::Model;

/// The live procedure records by identifier (docs/levels.md, "Levels"). They are seen as a finite map.
#[derive(Drop)]
pub struct Codes {
    records: Table<CodeRow>,
}

impl Model for Codes {
    ghost use Rattle.std.specs.Coded.{coded_ℕ};
    ghost use Rattle.std.specs.FinMap as map;
    ghost use Rattle.psos_calls.specs.Levels.Level13.{CodeState};
    ghost use Rattle.psos_calls.specs.contracts.code_row.CodeRow as code_row;

    ghost Value = { CodeState };

    ghost coded = { map.code coded_ℕ code_row.the_row.coded };

    ghost view = { λ c. c.records };
}

// Whether a word may be the linkage of a record: a record is a store of guard 1.
fn admit(word: Word) -> LevelAnswer<NoPage>
    ensures { with_any_page result ≡ admitted word }
{
    match admits(Rights::of(1), word) {
        Ok(()) => LevelAnswer::Done,
        Err(bit) => LevelAnswer::No(Refusal::Guarded(bit)),
    }
}

impl Codes {
    /// No procedure record. It takes no memory, so there is no `Err`.
    pub fn new(alloc: Global) -> Result<Codes, AllocError>
        ensures { result ≡ Ok empty }
    {
        Ok(Codes {
            records: Table::new(alloc),
        })
    }

    // The record that a capability names, for one who may enter it.
    fn enter(&self, cap: Cap) -> LevelAnswer<NoPage>
        ensures { with_any_page result ≡ entered self.now cap }
    {
        let Some(record) = self.records.get(cap.uid().0) else {
            return LevelAnswer::No(Refusal::Absent(Kind::Code));
        };
        if !has(cap, Right::Enter) {
            return LevelAnswer::No(Refusal::Lacks(Right::Enter));
        }
        LevelAnswer::Entered {
            label: record.label,
            link: record.link,
        }
    }

    /// Makes a call of level 13 (docs/levels.md, "Calls"): what it leaves and answers are those of `act13`. The
    /// answer tells no page. A refusal is the answer `No`, and changes nothing; a call of another level is answered with
    /// `Done`. `Err` only where memory runs out, in `CodeMake` alone: the level is unchanged. Rows take their memory from
    /// the allocator of `new`; `_alloc` stands there since the calls of all levels have one form.
    pub fn act(
        &mut self,
        _alloc: Global,
        call: &LevelCall,
    ) -> Result<LevelAnswer<NoPage>, LevelFault>
        requires { Can13 self.old call.now }
        ensures state { OnOk result (self.new ≡ (act13 self.old call.now).0) }
        ensures answer { IfOk result (λ a. with_any_page a ≡ (act13 self.old call.now).1) }
        ensures unchanged { OnErr result (self.new ≡ self.old) }
        ensures memory { IfErr result (λ fault. fault ≡ LevelFault.Memory alloc_error) }
        ensures adding { OnErr result (AddsRowAt L13 call.now) }
    {
        match *call {
            LevelCall::Admit { word } => Ok(admit(word)),
            LevelCall::CodeMake { uid, label, link } => {
                match self.records.put(uid.0, CodeRow { label, link }) {
                    Ok(()) => Ok(LevelAnswer::Done),
                    Err(error) => Err(LevelFault::Memory(error)),
                }
            }
            LevelCall::Enter { cap } => Ok(self.enter(cap)),
            LevelCall::CodeGone { uid } => {
                self.records.remove(uid.0);
                Ok(LevelAnswer::Done)
            }
            _ => Ok(LevelAnswer::Done),
        }
    }
}
