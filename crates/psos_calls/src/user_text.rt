// What one user asks.
ghost use Rattle.std.specs.Prelude.{◌≡◌, map, slice_get};
ghost use Rattle.psos_calls.specs.Language.Script.{requests_of};
ghost use Rattle.psos_text.specs.Name.{name_text};

use crate::Request;
use psos_text::Name;
use std::marker::Model;

/// A user of a script: a name, and the requests of each phase. It is seen as the name's text and those lists.
#[derive(Drop)]
pub struct UserText {
    name: Name,
    phases: Vec<Vec<Request>>,
}

impl Model for UserText {
    ghost use Rattle.std.specs.Prelude.{map};
    ghost use Rattle.psos_text.specs.Name.{name_text};
    ghost use Rattle.psos_calls.specs.Language.Script.{UserScript};

    ghost Value = { UserScript };

    ghost view = { λ u. record { name = name_text u.name; phases = map (λ p. p.items) u.phases.items } };
}

impl UserText {
    pub fn new(name: Name, phases: Vec<Vec<Request>>) -> UserText
        ensures name { result.name ≡ name_text name }
        ensures phases { result.phases ≡ map (λ p. p.items) phases.items }
    {
        UserText { name, phases }
    }

    /// The name.
    pub fn name(&self) -> &Name
        ensures { name_text result.now ≡ self.now.name }
    {
        &self.name
    }

    /// The requests of each phase.
    pub fn phases(&self) -> &[Vec<Request>]
        ensures { map (λ p. p.items) result.now ≡ self.now.phases }
    {
        &self.phases
    }

    /// Request k, counted from 0 over all phases.
    pub fn request(&self, k: usize) -> Option<Request>
        ensures { result ≡ slice_get (requests_of self.now) k }
    {
        let mut left = k;
        'phases: for phase in &self.phases {
            if left < phase.len() {
                return Some(phase[left]);
            }
            left -= phase.len();
        }
        None
    }
}
