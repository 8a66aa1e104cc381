// The entries of a directory.
ghost use Rattle.std.specs.Prelude.{◌≡◌, ◌<◌, ◌^◌, None, IfOk, OnOk, OnErr};
ghost use Rattle.std.specs.FinMap as map;

use crate::Named;
use psos_calls::Names;
use psos_text::Name;
use std::alloc::{AllocError, Global};
use std::collections::BTreeMap;
use std::marker::Model;

/// The entries of a directory, by name, seen as a finite map.
#[derive(Drop)]
pub struct NamesTable {
    entries: BTreeMap<Name, Named>,
}

impl Model for NamesTable {
    ghost use Rattle.std.specs.FinMap as map;
    ghost use Rattle.psos_calls.specs.Language.Names.{name_cmp};
    ghost use Rattle.psos_model.specs.declared.named.Named.{Named};
    ghost use Rattle.psos_model.specs.Flat.Codes.{name_code, named_code};

    ghost Value = { map.FinMap name_cmp Named };

    ghost coded = { map.code name_code named_code };

    ghost view = { λ t. map.from_entries t.entries.entries };
}

impl NamesTable {
    /// No entry. It takes no memory.
    pub fn new(alloc: Global) -> NamesTable
        ensures { result ≡ map.empty }
    {
        NamesTable {
            entries: BTreeMap::new(alloc),
        }
    }

    /// What a name stands for.
    pub fn get(&self, name: &Name) -> Option<Named>
        ensures { result ≡ map.get self.now name.now }
    {
        self.entries.get(name).copied()
    }

    /// How many entries there are.
    pub fn len(&self) -> usize
        ensures { result ≡ map.len self.now }
    {
        self.entries.len()
    }

    /// Their names, in ascending order. `Err` only where memory runs out.
    pub fn keys(&self, alloc: Global) -> Result<Names, AllocError>
        ensures { IfOk result (λ n. n ≡ map.keys self.now) }
    {
        let mut names = Names::empty(alloc);
        'names: for name in self.entries.keys() {
            names.push(*name)?;
        }
        Ok(names)
    }

    /// An entry comes, in the place of the one of this name. `Err` only where memory runs out, which only a new name
    /// takes; it changes nothing.
    pub fn put(&mut self, name: Name, named: Named) -> Result<(), AllocError>
        ensures ok { OnOk result (self.new ≡ map.insert self.old name named) }
        ensures err { OnErr result (self.new ≡ self.old) }
        ensures absent { OnErr result (map.get self.old name ≡ None) }
    {
        self.entries.insert(name, named)?;
        Ok(())
    }

    /// The entry of a name goes, where there is one.
    pub fn remove(&mut self, name: &Name)
        ensures { self.new ≡ map.remove self.old name.now }
    {
        self.entries.remove(name);
    }
}
