// The objects of users' types.
ghost use Rattle.std.specs.Prelude.{◌≡◌, ◌==◌, true, nat_lt, None, OnOk, OnErr};
ghost use Rattle.std.specs.FinMap.{empty};
ghost use Rattle.psos_table.specs.Table.{at, put, without, kept, has, size};
ghost use Rattle.psos_model.specs.declared.object.Object.{Object as ObjectRow};
ghost use Rattle.psos_model.specs.Flat.Undo.{put_back};

use crate::Object;
use std::alloc::{AllocError, Global};
use std::collections::BTreeMap;
use std::marker::Model;

/// The objects by identifier, seen as a finite map. It is a table that can also be searched for a type.
#[derive(Drop)]
pub struct Objects {
    rows: BTreeMap<u64, Object>,
}

impl Model for Objects {
    ghost use Rattle.std.specs.Ordering.{nat_cmp};
    ghost use Rattle.std.specs.FinMap as map;
    ghost use Rattle.std.specs.Coded.{coded_ℕ};
    ghost use Rattle.psos_model.specs.declared.object.Object.{Object};
    ghost use Rattle.psos_model.specs.Flat.Codes.{object_code};

    ghost Value = { map.FinMap nat_cmp Object };

    ghost coded = { map.code coded_ℕ object_code };

    ghost view = { λ o. map.from_entries o.rows.entries };
}

impl Objects {
    /// No object. It takes no memory.
    pub fn new(alloc: Global) -> Objects
        ensures { result ≡ empty }
    {
        Objects {
            rows: BTreeMap::new(alloc),
        }
    }

    /// The object under an identifier.
    pub fn get(&self, uid: u64) -> Option<Object>
        ensures { result ≡ at self.now uid }
    {
        self.rows.get(&uid).copied()
    }

    /// Whether there is an object of this type.
    pub fn has_type(&self, of: u64) -> bool
        ensures { result ≡ nat_lt 0 (size (kept (λ (o : ObjectRow). o.of == of) self.now)) }
    {
        'objects: for object in self.rows.values() {
            if object.of == of {
                return true;
            }
        }
        false
    }

    /// Puts an object under an identifier, in the place of the one there. `Err` only where memory runs out, which only
    /// a new identifier takes; it changes nothing.
    pub fn put(&mut self, uid: u64, object: Object) -> Result<(), AllocError>
        ensures ok { OnOk result (self.new ≡ put self.old uid object) }
        ensures err { OnErr result (self.new ≡ self.old) }
        ensures absent { OnErr result (at self.old uid ≡ None) }
    {
        self.rows.insert(uid, object)?;
        Ok(())
    }

    /// The object under an identifier goes.
    pub fn remove(&mut self, uid: u64)
        ensures { self.new ≡ without self.old uid }
    {
        self.rows.remove(&uid);
    }

    /// What is under an identifier becomes what it was before an object was put there.
    pub fn put_back(&mut self, uid: u64, was: Option<Object>)
        requires { has self.old uid ≡ true }
        ensures { self.new ≡ put_back self.old uid was }
    {
        match was {
            Some(object) => {
                if self.put(uid, object).is_err() {
                    unreachable!();
                }
            }
            None => self.remove(uid),
        }
    }
}
