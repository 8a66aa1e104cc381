// Names that stand on the lines before.
ghost use Rattle.std.specs.Prelude.{◌≡◌, ◌<◌, ◌≤◌, [], ◌∷◌, ◌++◌, length, OnOk, OnErr};
ghost use Rattle.psos_text.specs.Name.{name_text};
ghost use Rattle.psos_script.specs.Values.{number_among};
ghost use Rattle.psos_script.specs.Fault.{is_among};

use psos_text::Name;
use std::alloc::{AllocError, Global};
use std::marker::Model;

/// The names of users or the labels of code blocks so far, at most 64. It is seen as the list of their texts.
#[derive(Drop)]
pub(crate) struct NameList {
    names: Vec<Name>,
}

impl Model for NameList {
    ghost use Rattle.std.specs.Prelude.{◌≤◌, List, map, length};
    ghost use Rattle.psos_text.specs.Name.{name_text};
    ghost use Rattle.psos_model.specs.Text.Operands.{Text};

    ghost Value = { List Text };

    ghost view = { λ n. map name_text n.names.items };

    ghost invariant = { λ n. length n.names.items ≤ 64 };
}

impl NameList {
    pub(crate) fn new(alloc: Global) -> NameList
        ensures { result ≡ [] }
    {
        NameList {
            names: Vec::new(alloc),
        }
    }

    pub(crate) fn len(&self) -> usize
        ensures count { result ≡ length self.now }
        ensures few { result ≤ 64 }
    {
        self.names.len()
    }

    // One name more. `Err` only where memory runs out.
    pub(crate) fn push(&mut self, name: Name) -> Result<(), AllocError>
        requires room { length self.old < 64 }
        ensures ok { OnOk result (self.new ≡ self.old ++ name_text name ∷ []) }
        ensures err { OnErr result (self.new ≡ self.old) }
    {
        self.names.push(name)?;
        Ok(())
    }

    // Whether the word is one of the names.
    #[tactic(auto, using(crate::proofs::Lists::among_position))]
    pub(crate) fn has(&self, word: &[u8]) -> bool
        ensures { result ≡ is_among word.now self.now }
    {
        usize::from(self.number(word)) < self.len()
    }

    // The number of the word among the names, or how many there are.
    pub(crate) fn number(&self, word: &[u8]) -> u8
        ensures { result ≡ number_among self.now word.now }
    {
        'names: for (i, name) in self.names.iter().enumerate() {
            if name.as_bytes() == word {
                return i as u8;
            }
        }
        self.names.len() as u8
    }
}
