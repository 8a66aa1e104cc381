// The words of pages as one list.
ghost use Rattle.std.specs.Prelude.{◌≡◌, ◌*◌, ◌<◌, length};
ghost use Rattle.psos_words.specs.Words.{word_at};
ghost use Rattle.psos_dirrep.specs.Pages.{words_of, ArePages};

use psos_words::{Page, Word};

// Each page has 64 words. It does no more than to look at each of them.
pub(crate) fn see(pages: &[Page])
    ensures { ArePages pages.now }
{
    if let Some((page, rest)) = pages.split_first() {
        page.get(0);
        see(rest);
    }
}

// Word i of pages.
pub(crate) fn word_of(pages: &[Page], i: usize) -> Word
    requires are { ArePages pages.now }
    requires within { i < 64 * length pages.now }
    ensures { result ≡ word_at (words_of pages.now) i }
{
    pages[i / 64].get((i % 64) as u8)
}
