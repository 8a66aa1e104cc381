// Changes of tables, each made wholly or not at all.
ghost use Rattle.std.specs.Prelude.{◌≡◌, ◌∷◌, [], ◌++◌, true, false, None, OnOk, OnErr};
ghost use Rattle.std.specs.FinMap.{empty};
ghost use Rattle.psos_table.specs.Table.{at, put, edit, has};
ghost use Rattle.psos_model.specs.Flat.Changes.{with_entry, new_segment};
ghost use Rattle.psos_model.specs.Flat.Undo.{put_back, entry_back, entry_at};

use crate::edits::EntryGone;
use crate::{Directory, Mailbox, Named, NamesTable, Segment};
use psos_caps::Rights;
use psos_table::Table;
use psos_text::Name;
use psos_words::Word;
use std::alloc::{AllocError, Global};

/// An entry of a directory comes, in the place of the one of this name.
pub(crate) fn put_entry(
    dirs: &mut Table<Directory>,
    dir: u64,
    name: Name,
    named: Named,
) -> Result<(), AllocError>
    ensures ok { OnOk result (dirs.new ≡ edit dirs.old dir (with_entry name named)) }
    ensures err { OnErr result (dirs.new ≡ dirs.old) }
    ensures absent { OnErr result (entry_at dirs.old dir name ≡ None) }
    ensures live { OnErr result (has dirs.old dir ≡ true) }
{
    match dirs.get_mut(dir) {
        Some(row) => row.names.put(name, named),
        None => Ok(()),
    }
}

/// What a name stands for in a directory, if that lives.
pub(crate) fn entry_at(dirs: &Table<Directory>, dir: u64, name: &Name) -> Option<Named>
    ensures { result ≡ entry_at dirs.now dir name.now }
{
    match dirs.get(dir) {
        Some(row) => row.names.get(name),
        None => None,
    }
}

/// A word goes last into a mailbox.
pub(crate) fn post(boxes: &mut Table<Mailbox>, uid: u64, word: Word) -> Result<(), AllocError>
    ensures ok { OnOk result (boxes.new ≡ edit boxes.old uid (λ box. box ++ word ∷ [])) }
    ensures err { OnErr result (boxes.new ≡ boxes.old) }
{
    match boxes.get_mut(uid) {
        Some(row) => row.post(word),
        None => Ok(()),
    }
}

/// A segment of so many words of data 0 is made.
pub(crate) fn make_segment(
    alloc: Global,
    segments: &mut Table<Segment>,
    uid: u64,
    len: u64,
    guard: Rights,
) -> Result<(), AllocError>
    ensures ok { OnOk result (segments.new ≡ put segments.old uid (new_segment len guard)) }
    ensures err { OnErr result (segments.new ≡ segments.old) }
{
    let segment = Segment::new(alloc, len as usize, guard)?;
    segments.put(uid, segment)
}

/// A directory with no entry is made.
pub(crate) fn make_directory(
    alloc: Global,
    dirs: &mut Table<Directory>,
    uid: u64,
    rep: u64,
    guard: Rights,
) -> Result<(), AllocError>
    ensures ok { OnOk result (dirs.new ≡ put dirs.old uid (record { guard = guard; rep = rep; names = empty })) }
    ensures err { OnErr result (dirs.new ≡ dirs.old) }
{
    dirs.put(
        uid,
        Directory {
            guard,
            rep,
            names: NamesTable::new(alloc),
        },
    )
}

/// A row becomes what it was before it was put.
pub(crate) fn put_back<V: Copy>(table: &mut Table<V>, key: u64, was: Option<V>)
    requires { has table.old key ≡ true }
    ensures { table.new ≡ put_back table.old key was }
{
    match was {
        Some(row) => {
            if table.put(key, row).is_err() {
                unreachable!();
            }
        }
        None => {
            table.remove(key);
        }
    }
}

/// An entry becomes what it was before it was put.
pub(crate) fn entry_back(dirs: &mut Table<Directory>, dir: u64, name: Name, was: Option<Named>)
    requires { entry_at dirs.old dir name ≡ None → has dirs.old dir ≡ false }
    ensures { dirs.new ≡ edit dirs.old dir (entry_back name was) }
{
    match was {
        Some(named) => {
            if put_entry(dirs, dir, name, named).is_err() {
                unreachable!();
            }
        }
        None => dirs.edit(dir, &EntryGone { name }),
    }
}
