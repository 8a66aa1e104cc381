// Extended types.
ghost use Rattle.std.specs.Prelude.{◌≡◌, IfOk, IfErr, OnOk, OnErr, alloc_error};
ghost use Rattle.std.specs.FinMap.{empty};
ghost use Rattle.psos_table.specs.Table.{without};
ghost use Rattle.psos_calls.specs.declared.level.Level.TheVariants.{L9};
ghost use Rattle.psos_calls.specs.Levels.{AddsRowAt};
ghost use Rattle.psos_calls.specs.Levels.Answers.{with_any_page};
ghost use Rattle.psos_calls.specs.Levels.Level9.{rep_of, type_at, impl_of, has_objects, type_gone, act9, Can9};

use crate::by_type::ByType;
use psos_calls::{Kind, LevelAnswer, LevelCall, LevelFault, NoPage, ObjRow, Refusal, Right, has};
use psos_caps::{Cap, Uid};
use psos_counts::Counted;
use psos_table::Table;
use psos_words::Word;
use std::alloc::{AllocError, Global};
use std::marker::Model;

/// The live types; and by identifier the live objects and directories, each with its type (none for a directory) and
/// the capability on its representation (docs/levels.md, "Levels"). They are seen as two finite maps. How many
/// objects a type has is kept beside them.
#[derive(Drop)]
pub struct Types {
    types: Table<bool>,
    objects: Counted<ObjRow, ByType>,
}

impl Model for Types {
    ghost use Rattle.psos_calls.specs.Levels.Level9.{TypeState};
    ghost use Rattle.psos_types.specs.Codes.{type_state_code};

    ghost Value = { TypeState };

    ghost coded = { type_state_code };

    ghost view = { λ t. record { types = t.types; objects = t.objects } };
}

impl Types {
    /// No type, object or directory. It takes no memory, so there is no `Err`.
    pub fn new(alloc: Global) -> Result<Types, AllocError>
        ensures { result ≡ Ok (record { types = empty; objects = empty }) }
    {
        Ok(Types {
            types: Table::new(alloc),
            objects: Counted::new(alloc),
        })
    }

    // The identifier of a representation.
    fn rep(&self, uid: u64) -> Uid
        ensures { result.0 ≡ rep_of self.now uid }
    {
        match self.objects.get(uid) {
            Some(object) => object.rep.uid(),
            None => Uid(0),
        }
    }

    // Whether objects of a type may be made.
    fn at(&self, cap: Cap) -> LevelAnswer<NoPage>
        ensures { with_any_page result ≡ type_at self.now cap }
    {
        let Some(_live) = self.types.get(cap.uid().0) else {
            return LevelAnswer::No(Refusal::Absent(Kind::Typ));
        };
        if !has(cap, Right::Make) {
            return LevelAnswer::No(Refusal::Lacks(Right::Make));
        }
        LevelAnswer::Done
    }

    // The representation capability of an object, for one who has its type.
    fn implementation(&self, of: Cap, on: Cap) -> LevelAnswer<NoPage>
        ensures { with_any_page result ≡ impl_of self.now of on }
    {
        let Some(_live) = self.types.get(of.uid().0) else {
            return LevelAnswer::No(Refusal::Absent(Kind::Typ));
        };
        if !has(of, Right::Impl) {
            return LevelAnswer::No(Refusal::Lacks(Right::Impl));
        }
        let Some(object) = self.objects.get(on.uid().0) else {
            return LevelAnswer::No(Refusal::Absent(Kind::Object));
        };
        let Some(its_type) = object.of else {
            return LevelAnswer::No(Refusal::Absent(Kind::Object));
        };
        if its_type.0 != of.uid().0 {
            return LevelAnswer::No(Refusal::WrongType);
        }
        LevelAnswer::Got(Word::Cap(object.rep))
    }

    // Whether a live object has this type.
    fn has_objects(&self, of: u64) -> bool
        ensures { result ≡ has_objects self.now of }
    {
        self.objects.count(of) > 0
    }

    // A type goes, where it has no object.
    fn drop_type(&mut self, uid: u64) -> LevelAnswer<NoPage>
        ensures state { self.new ≡ (type_gone self.old uid).0 }
        ensures answer { with_any_page result ≡ (type_gone self.old uid).1 }
    {
        if self.has_objects(uid) {
            return LevelAnswer::No(Refusal::NotEmpty);
        }
        self.types.remove(uid);
        LevelAnswer::Done
    }

    // An object or a directory goes. The answer is the identifier of its representation.
    fn drop_object(&mut self, uid: u64) -> Uid
        ensures state { self.new ≡ record self.old { objects = without self.old.objects uid } }
        ensures rep { result.0 ≡ rep_of self.old uid }
    {
        match self.objects.remove(uid) {
            Some(object) => object.rep.uid(),
            None => Uid(0),
        }
    }

    /// Makes a call of level 9 (docs/levels.md, "Calls"): what it leaves and answers are those of `act9`. The
    /// answer tells no page. A refusal is the answer `No`, and changes nothing; a call of another level is answered with
    /// `Done`. `Err` only where memory runs out, in `TypeMake` and `ObjMake` alone: the level is unchanged. Rows take their
    /// memory from the allocator of `new`; `_alloc` stands there since the calls of all levels have one form.
    pub fn act(
        &mut self,
        _alloc: Global,
        call: &LevelCall,
    ) -> Result<LevelAnswer<NoPage>, LevelFault>
        requires { Can9 self.old call.now }
        ensures state { OnOk result (self.new ≡ (act9 self.old call.now).0) }
        ensures answer { IfOk result (λ a. with_any_page a ≡ (act9 self.old call.now).1) }
        ensures unchanged { OnErr result (self.new ≡ self.old) }
        ensures memory { IfErr result (λ fault. fault ≡ LevelFault.Memory alloc_error) }
        ensures adding { OnErr result (AddsRowAt L9 call.now) }
    {
        match *call {
            LevelCall::RepOf { uid } => Ok(LevelAnswer::Rep(self.rep(uid.0))),
            LevelCall::TypeAt { cap } => Ok(self.at(cap)),
            LevelCall::TypeMake { uid } => match self.types.put(uid.0, true) {
                Ok(()) => Ok(LevelAnswer::Done),
                Err(error) => Err(LevelFault::Memory(error)),
            },
            LevelCall::ObjMake { uid, of, rep } => {
                match self.objects.put_new(uid.0, ObjRow { of, rep }) {
                    Ok(()) => Ok(LevelAnswer::Done),
                    Err(error) => Err(LevelFault::Memory(error)),
                }
            }
            LevelCall::Impl { of, on } => Ok(self.implementation(of, on)),
            LevelCall::ObjGone { uid } => Ok(LevelAnswer::Rep(self.drop_object(uid.0))),
            LevelCall::TypeGone { uid } => Ok(self.drop_type(uid.0)),
            _ => Ok(LevelAnswer::Done),
        }
    }
}
