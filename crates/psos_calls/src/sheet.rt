// A page that lies somewhere else.
ghost use Rattle.std.specs.Prelude.{◌≡◌};

use psos_words::Page;
use std::marker::Model;

/// A page that is lent, as an answer in a trace tells it. It is seen as its words.
#[derive(Drop)]
pub struct Sheet<'a> {
    page: &'a Page,
}

impl<'a> Model for Sheet<'a> {
    ghost use Rattle.std.specs.Prelude.{List};
    ghost use Rattle.psos_words.specs.declared.word.Word.{Word};

    ghost Value = { List Word };

    ghost view = { λ s. s.page.now };
}

impl<'a> Sheet<'a> {
    // The sheet of a page.
    pub(crate) fn of(page: &'a Page) -> Sheet<'a>
        ensures { result ≡ page.now }
    {
        Sheet { page }
    }

    /// The page.
    pub fn page(&self) -> &'a Page
        ensures { result.now ≡ self.now }
    {
        self.page
    }
}
