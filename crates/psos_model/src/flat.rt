// The flat state.
ghost use Rattle.std.specs.Prelude.{◌≡◌, ◌+◌, ◌≤◌, None, IfSome};
ghost use Rattle.std.specs.Option.{option_map};
ghost use Rattle.psos_limits.specs.declared.TheConstants.{MOST_WORDS};
ghost use Rattle.psos_table.specs.Table.{at};
ghost use Rattle.psos_words.specs.Words.{word_at};
ghost use Rattle.psos_model.specs.Flat.{flat_view, words_of};
ghost use Rattle.psos_model.specs.Flat.Places.{rep_cap};
ghost use Rattle.psos_model.specs.Flat.Within.{IsWithin, as_view};

use crate::issue::full;
use crate::{Directory, FlatView, Mailbox, Objects, Segment, Users};
use psos_calls::{CodeRow, Kind, WinRow};
use psos_caps::Cap;
use psos_table::Table;
use psos_words::Word;

/// The flat state: the system as its users see it (docs/system.md, "The flat state").
#[derive(Drop)]
pub struct Flat {
    /// The next identifier.
    pub next: u64,
    pub segments: Table<Segment>,
    pub windows: Table<WinRow>,
    pub types: Table<bool>,
    pub objects: Objects,
    pub dirs: Table<Directory>,
    /// The user objects, with their kinds.
    pub life: Table<Kind>,
    pub boxes: Table<Mailbox>,
    pub codes: Table<CodeRow>,
    /// In the order of the script.
    pub users: Users,
}

impl Flat {
    /// The words that an identifier leads to.
    pub fn view(&self, uid: u64) -> Option<FlatView>
        requires { IsWithin self.now }
        ensures value { option_map as_view result ≡ flat_view self.now uid }
        ensures small { IfSome result (λ v. v.base + v.len ≤ MOST_WORDS) }
    {
        if let Some(segment) = self.segments.get(uid) {
            return Some(FlatView {
                seg: uid,
                base: 0,
                len: segment.len() as u64,
                guard: segment.guard(),
            });
        }
        self.window_view(uid)
    }

    // What a window leads to, where there is no segment.
    fn window_view(&self, uid: u64) -> Option<FlatView>
        requires within { IsWithin self.now }
        requires no_segment { at self.now.segments uid ≡ None }
        ensures value { option_map as_view result ≡ flat_view self.now uid }
        ensures small { IfSome result (λ v. v.base + v.len ≤ MOST_WORDS) }
    {
        let Some(window) = self.windows.get(uid) else {
            return None;
        };
        let Some(segment) = self.segments.get(window.seg.0) else {
            return None;
        };
        Some(FlatView {
            seg: window.seg.0,
            base: window.base as u64,
            len: window.len as u64,
            guard: segment.guard(),
        })
    }

    /// Word i of a segment; data 0 where there is none.
    pub fn word(&self, uid: u64, i: usize) -> Word
        ensures { result ≡ word_at (words_of self.now uid) i }
    {
        match self.segments.get(uid) {
            Some(segment) => segment.word(i),
            None => Word::Data(0),
        }
    }

    /// The capability on the representation of an object or of a directory, if there is one (docs/system.md, "Places").
    pub fn rep_cap(&self, uid: u64) -> Option<Cap>
        ensures { result ≡ rep_cap (at self.now.objects uid) (at self.now.dirs uid) }
    {
        match self.objects.get(uid) {
            Some(object) => Some(full(object.rep)),
            None => match self.dirs.get(uid) {
                Some(dir) => Some(full(dir.rep)),
                None => None,
            },
        }
    }
}
