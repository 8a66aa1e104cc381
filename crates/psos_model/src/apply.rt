// The flat state under changes.
ghost use Rattle.std.specs.Prelude.{◌≡◌, ◌+◌, ◌<◌, ◌^◌, [], ◌∷◌, true, false, None, IfOk, OnOk, OnErr};
ghost use Rattle.std.specs.FinMap.{empty};
ghost use Rattle.std.specs.List.{list_all};
ghost use Rattle.psos_model.specs.declared.change.Change.TheVariants.{Register, MakeObject, MakeDirectory, DropSegment};
ghost use Rattle.psos_model.specs.Flat.Changes.{changed, changed_all, kept_entry};
ghost use Rattle.psos_model.specs.Flat.Safe.{is_sure, is_making, is_told, is_apart, used, used_by};
ghost use Rattle.psos_model.specs.Flat.Undo.{entry_at, first_entry, taken_back};
ghost use Rattle.psos_table.specs.Table.{has};

use crate::edits::{EntryGone, FirstGone, NotOver, WordPut};
use crate::issue::full;
use crate::rows::{entry_at, entry_back, make_directory, make_segment, post, put_back, put_entry};
use crate::{Change, ChangeList, Directory, Flat, Named, NamesTable, Object};
use psos_calls::Kind;
use psos_caps::Rights;
use psos_text::Name;
use std::alloc::{AllocError, Global};

impl Flat {
    /// Makes a change. `Err` only where memory runs out: nothing is changed.
    pub fn apply(&mut self, alloc: Global, change: &Change) -> Result<(), AllocError>
        requires { self.old.next + used change.now < 2 ^ 64 }
        ensures ok { OnOk result (self.new ≡ changed self.old change.now) }
        ensures err { OnErr result (self.new ≡ self.old) }
    {
        match change {
            Change::Bind { dir, name, cap } => put_entry(
                &mut self.dirs,
                *dir,
                *name,
                Named {
                    cap: *cap,
                    kept: false,
                },
            ),
            Change::Register {
                uid,
                dir,
                name,
                kind,
            } => self.register(*uid, *dir, *name, *kind),
            Change::Post { uid, word } => post(&mut self.boxes, *uid, *word),
            Change::MakeSegment { uid, len, guard } => {
                make_segment(alloc, &mut self.segments, *uid, *len, *guard)
            }
            Change::MakeWindow { uid, row } => self.windows.put(*uid, *row),
            Change::MakeType { uid } => self.types.put(*uid, true),
            Change::MakeObject { uid, object, len } => self.make_object(alloc, *uid, *object, *len),
            Change::MakeDirectory { uid, rep, guard } => {
                make_directory(alloc, &mut self.dirs, *uid, *rep, *guard)
            }
            Change::MakeCode { uid, row } => self.codes.put(*uid, *row),
            Change::Fresh
            | Change::PutWord { .. }
            | Change::Unbind { .. }
            | Change::Unregister { .. }
            | Change::Draw { .. }
            | Change::DropSegment { .. }
            | Change::DropType { .. }
            | Change::DropObject { .. }
            | Change::DropDirectory { .. }
            | Change::DropCode { .. } => {
                self.apply_sure(change);
                Ok(())
            }
        }
    }

    // Makes a change that takes no memory.
    fn apply_sure(&mut self, change: &Change)
        requires sure { is_sure change.now ≡ true }
        requires room { self.old.next + used change.now < 2 ^ 64 }
        ensures { self.new ≡ changed self.old change.now }
    {
        match change {
            Change::Fresh => self.next += 1,
            Change::PutWord { uid, i, word } => self
                .segments
                .edit(*uid, &WordPut { i: *i, word: *word }),
            Change::Unbind { dir, name } => self.dirs.edit(*dir, &EntryGone { name: *name }),
            Change::Unregister { uid, dir, name } => {
                self.dirs.edit(*dir, &EntryGone { name: *name });
                self.life.remove(*uid);
            }
            Change::Draw { uid } => self.boxes.edit(*uid, &FirstGone {}),
            Change::DropSegment { uid } => self.drop_segment(*uid),
            Change::DropType { uid } => {
                self.types.remove(*uid);
            }
            Change::DropObject { uid, rep } => {
                self.objects.remove(*uid);
                self.drop_segment(*rep);
            }
            Change::DropDirectory { uid } => {
                self.dirs.remove(*uid);
            }
            Change::DropCode { uid } => {
                self.codes.remove(*uid);
            }
            Change::Bind { .. }
            | Change::Register { .. }
            | Change::Post { .. }
            | Change::MakeSegment { .. }
            | Change::MakeWindow { .. }
            | Change::MakeType { .. }
            | Change::MakeObject { .. }
            | Change::MakeDirectory { .. }
            | Change::MakeCode { .. } => {}
        }
    }

    // A segment goes, with its windows.
    fn drop_segment(&mut self, uid: u64)
        ensures { self.new ≡ changed self.old (DropSegment uid) }
    {
        self.segments.remove(uid);
        self.windows.keep(&NotOver { uid });
    }

    // An object is made, with its representation.
    fn make_object(
        &mut self,
        alloc: Global,
        uid: u64,
        object: Object,
        len: u64,
    ) -> Result<(), AllocError>
        ensures ok { OnOk result (self.new ≡ changed self.old (MakeObject uid object len)) }
        ensures err { OnErr result (self.new ≡ self.old) }
    {
        let was = self.objects.get(uid);
        self.objects.put(uid, object)?;
        if make_segment(alloc, &mut self.segments, object.rep, len, Rights::of(1)).is_err() {
            self.objects.put_back(uid, was);
            return Err(AllocError);
        }
        Ok(())
    }

    // A user object is told of, with its distinguished entry.
    fn register(&mut self, uid: u64, dir: u64, name: Name, kind: Kind) -> Result<(), AllocError>
        ensures ok { OnOk result (self.new ≡ changed self.old (Register uid dir name kind)) }
        ensures err { OnErr result (self.new ≡ self.old) }
    {
        let was = self.life.get(uid).copied();
        self.life.put(uid, kind)?;
        let entry = Named {
            cap: full(uid),
            kept: true,
        };
        if put_entry(&mut self.dirs, dir, name, entry).is_err() {
            put_back(&mut self.life, uid, was);
            return Err(AllocError);
        }
        Ok(())
    }

    /// Makes all changes of a request, in order. `Err` only where memory runs out: nothing is changed.
    pub fn apply_all(&mut self, alloc: Global, changes: &ChangeList) -> Result<(), AllocError>
        requires { self.old.next + 2 < 2 ^ 64 }
        ensures ok { OnOk result (self.new ≡ changed_all self.old changes.now) }
        ensures err { OnErr result (self.new ≡ self.old) }
    {
        let Some((first, rest)) = changes.as_slice().split_first() else {
            return Ok(());
        };
        if all_sure(rest) {
            self.apply(alloc, first)?;
            self.apply_rest(rest);
            return Ok(());
        }
        let Some((told, sure)) = rest.split_first() else {
            return Ok(());
        };
        self.apply_told(alloc, first, told)?;
        self.apply_rest(sure);
        Ok(())
    }

    // Makes changes that take no memory.
    fn apply_rest(&mut self, sure: &[Change])
        requires sure { list_all is_sure sure.now ≡ true }
        requires room { self.old.next + used_by sure.now < 2 ^ 64 }
        ensures { self.new ≡ changed_all self.old sure.now }
    {
        if let Some((change, rest)) = sure.split_first() {
            self.apply_sure(change);
            self.apply_rest(rest);
        }
    }

    // Makes a user object and tells of it.
    fn apply_told(
        &mut self,
        alloc: Global,
        making: &Change,
        told: &Change,
    ) -> Result<(), AllocError>
        requires making { is_making making.now ≡ true }
        requires told { is_told (told.now ∷ []) ≡ true }
        requires room { self.old.next + 2 < 2 ^ 64 }
        ensures ok { OnOk result (self.new ≡ changed (changed self.old making.now) told.now) }
        ensures err { OnErr result (self.new ≡ self.old) }
    {
        let Change::Register {
            uid,
            dir,
            name,
            kind,
        } = told
        else {
            return Ok(());
        };
        match making {
            Change::MakeDirectory {
                uid: made,
                rep,
                guard,
            } => self.make_directory_told(alloc, *made, *rep, *guard, *uid, *dir, *name, *kind),
            Change::MakeSegment { .. }
            | Change::MakeWindow { .. }
            | Change::MakeType { .. }
            | Change::MakeObject { .. }
            | Change::MakeCode { .. } => self.make_told(alloc, making, *uid, *dir, *name, *kind),
            _ => Ok(()),
        }
    }

    // Tells of a user object, and makes it.
    fn make_told(
        &mut self,
        alloc: Global,
        making: &Change,
        uid: u64,
        dir: u64,
        name: Name,
        kind: Kind,
    ) -> Result<(), AllocError>
        requires apart { is_apart making.now ≡ true }
        requires room { self.old.next < 2 ^ 64 }
        ensures ok { OnOk result (self.new ≡ changed (changed self.old making.now) (Register uid dir name kind)) }
        ensures err { OnErr result (self.new ≡ self.old) }
    {
        let was_kind = self.life.get(uid).copied();
        let was_entry = entry_at(&self.dirs, dir, &name);
        self.register(uid, dir, name, kind)?;
        if self.apply(alloc, making).is_err() {
            self.take_back(uid, dir, name, was_kind, was_entry);
            return Err(AllocError);
        }
        Ok(())
    }

    // Tells of a directory, and makes it.
    fn make_directory_told(
        &mut self,
        alloc: Global,
        made: u64,
        rep: u64,
        guard: Rights,
        uid: u64,
        dir: u64,
        name: Name,
        kind: Kind,
    ) -> Result<(), AllocError>
        ensures ok { OnOk result (self.new ≡ changed (changed self.old (MakeDirectory made rep guard)) (Register uid dir name kind)) }
        ensures err { OnErr result (self.new ≡ self.old) }
    {
        let directory = first_directory(alloc, rep, guard, made == dir, name, uid)?;
        let was_kind = self.life.get(uid).copied();
        let was_entry = entry_at(&self.dirs, dir, &name);
        self.register(uid, dir, name, kind)?;
        if self.dirs.put(made, directory).is_err() {
            self.take_back(uid, dir, name, was_kind, was_entry);
            return Err(AllocError);
        }
        Ok(())
    }

    // Takes back that a user object was told of.
    fn take_back(
        &mut self,
        uid: u64,
        dir: u64,
        name: Name,
        was_kind: Option<Kind>,
        was_entry: Option<Named>,
    )
        requires life { has self.old.life uid ≡ true }
        requires entry { entry_at self.old.dirs dir name ≡ None → has self.old.dirs dir ≡ false }
        ensures { self.new ≡ taken_back self.old uid dir name was_kind was_entry }
    {
        put_back(&mut self.life, uid, was_kind);
        entry_back(&mut self.dirs, dir, name, was_entry);
    }
}

// Whether no change takes memory.
fn all_sure(changes: &[Change]) -> bool
    ensures { result ≡ list_all is_sure changes.now }
{
    changes.iter().all(|change| is_sure(change))
}

fn is_sure(change: &Change) -> bool
    ensures { result ≡ is_sure change.now }
{
    match change {
        Change::Fresh
        | Change::PutWord { .. }
        | Change::Unbind { .. }
        | Change::Unregister { .. }
        | Change::Draw { .. }
        | Change::DropSegment { .. }
        | Change::DropType { .. }
        | Change::DropObject { .. }
        | Change::DropDirectory { .. }
        | Change::DropCode { .. } => true,
        _ => false,
    }
}

// A new directory, with the entry of a user object if that goes to it.
fn first_directory(
    alloc: Global,
    rep: u64,
    guard: Rights,
    itself: bool,
    name: Name,
    uid: u64,
) -> Result<Directory, AllocError>
    ensures { IfOk result (λ d. d ≡ first_entry itself name (kept_entry uid) (record { guard = guard; rep = rep; names = empty })) }
{
    let mut names = NamesTable::new(alloc);
    if itself {
        let entry = Named {
            cap: full(uid),
            kept: true,
        };
        names.put(name, entry)?;
    }
    Ok(Directory { guard, rep, names })
}
