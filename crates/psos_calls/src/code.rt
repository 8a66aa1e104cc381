// A code block.
ghost use Rattle.std.specs.Prelude.{◌≡◌};
ghost use Rattle.psos_text.specs.Name.{name_text};

use crate::Request;
use psos_text::Name;
use std::marker::Model;

/// A code block of a script: a label, and the lines of its body. It is seen as the label's text and that list.
#[derive(Drop)]
pub struct Code {
    label: Name,
    body: Vec<Request>,
}

impl Model for Code {
    ghost use Rattle.psos_text.specs.Name.{name_text};
    ghost use Rattle.psos_calls.specs.Language.Script.{CodeBlock};

    ghost Value = { CodeBlock };

    ghost view = { λ c. record { label = name_text c.label; body = c.body.items } };
}

impl Code {
    pub fn new(label: Name, body: Vec<Request>) -> Code
        ensures label { result.label ≡ name_text label }
        ensures body { result.body ≡ body.items }
    {
        Code { label, body }
    }

    /// The label.
    pub fn label(&self) -> &Name
        ensures { name_text result.now ≡ self.now.label }
    {
        &self.label
    }

    /// The lines of the body.
    pub fn body(&self) -> &[Request]
        ensures { result.now ≡ self.now.body }
    {
        &self.body
    }
}
