// The flat state at boot.
ghost use Rattle.std.specs.Prelude.{◌≡◌, ◌+◌, ◌<◌, ◌≤◌, [], ◌++◌, length, map, IfOk};
ghost use Rattle.std.specs.List.{flat_map, AllByRecursion};
ghost use Rattle.psos_limits.specs.declared.TheConstants.{MOST_LINES};
ghost use Rattle.psos_calls.specs.Language.Script.{IsWellFormed, requests_of};
ghost use Rattle.psos_model.specs.Flat.Boot.{boot, boot_next, boot_segments, boot_dirs, boot_life, boot_boxes, boot_users, boot_user, boot_regs, scratch_name, home_names, root};
ghost use Rattle.psos_model.specs.Flat.Within.{IsShort};

use crate::boot_uids::{home_of, home_rep_of, process_of, scratch_of};
use crate::issue::{capability, full};
use crate::{Directory, Flat, Mailbox, Named, NamesTable, Objects, Segment, Users};
use psos_calls::{Kind, Path, Private, Request, Script, UserText};
use psos_caps::{Cap, Rights, Uid};
use psos_table::Table;
use psos_text::Name;
use psos_words::{Registers, Word};
use std::alloc::{AllocError, Global};

impl Flat {
    /// The flat state at boot: the root directory, and each user's process, home and scratch segment. `Err` only where
    /// memory runs out.
    pub fn boot(alloc: Global, script: &Script) -> Result<Flat, AllocError>
        requires { IsWellFormed script.now }
        ensures { IfOk result (λ f. f ≡ boot script.now) }
    {
        let texts = script.users();
        let segments = boot_segments(alloc, 0, texts)?;
        let dirs = boot_dirs(alloc, 0, texts)?;
        let life = boot_life(alloc, 0, texts)?;
        let boxes = boot_boxes(alloc, 0, texts)?;
        let mut users = Users::new();
        push_users(&mut users, 0, texts);
        Ok(Flat {
            next: 3 + 4 * texts.len() as u64,
            segments,
            windows: Table::new(alloc),
            types: Table::new(alloc),
            objects: Objects::new(alloc),
            dirs,
            life,
            boxes,
            codes: Table::new(alloc),
            users,
        })
    }
}

// The scratch segments, of 64 words.
fn boot_segments(alloc: Global, i: u64, texts: &[UserText]) -> Result<Table<Segment>, AllocError>
    requires { i + length texts.now ≤ 8 }
    ensures { IfOk result (λ t. t ≡ boot_segments i texts.now) }
{
    let Some((_, rest)) = texts.split_first() else {
        return Ok(Table::new(alloc));
    };
    let mut segments = boot_segments(alloc, i + 1, rest)?;
    segments.put(scratch_of(i), Segment::new(alloc, 64, Rights::of(1))?)?;
    Ok(segments)
}

// The root, which is empty, and the homes, each with its scratch segment.
fn boot_dirs(alloc: Global, i: u64, texts: &[UserText]) -> Result<Table<Directory>, AllocError>
    requires { i + length texts.now ≤ 8 }
    ensures { IfOk result (λ t. t ≡ boot_dirs i texts.now) }
{
    let Some((_, rest)) = texts.split_first() else {
        return root_dirs(alloc);
    };
    let mut dirs = boot_dirs(alloc, i + 1, rest)?;
    let names = home_names(alloc, i)?;
    dirs.put(
        home_of(i),
        Directory {
            guard: Rights::of(1),
            rep: home_rep_of(i),
            names,
        },
    )?;
    Ok(dirs)
}

fn root_dirs(alloc: Global) -> Result<Table<Directory>, AllocError>
    ensures { IfOk result (λ t. t ≡ boot_dirs 0 []) }
{
    let mut dirs = Table::new(alloc);
    dirs.put(
        1,
        Directory {
            guard: Rights::of(1),
            rep: 2,
            names: NamesTable::new(alloc),
        },
    )?;
    Ok(dirs)
}

fn home_names(alloc: Global, i: u64) -> Result<NamesTable, AllocError>
    requires { i ≤ 8 }
    ensures { IfOk result (λ n. n ≡ home_names i) }
{
    let mut names = NamesTable::new(alloc);
    let entry = Named {
        cap: full(scratch_of(i)),
        kept: true,
    };
    names.put(scratch_name(), entry)?;
    Ok(names)
}

// The user objects, which are the scratch segments.
fn boot_life(alloc: Global, i: u64, texts: &[UserText]) -> Result<Table<Kind>, AllocError>
    requires { i + length texts.now ≤ 8 }
    ensures { IfOk result (λ t. t ≡ boot_life i texts.now) }
{
    let Some((_, rest)) = texts.split_first() else {
        return Ok(Table::new(alloc));
    };
    let mut life = boot_life(alloc, i + 1, rest)?;
    life.put(scratch_of(i), Kind::Segment)?;
    Ok(life)
}

// The mailboxes, which are empty.
fn boot_boxes(alloc: Global, i: u64, texts: &[UserText]) -> Result<Table<Mailbox>, AllocError>
    requires { i + length texts.now ≤ 8 }
    ensures { IfOk result (λ t. t ≡ boot_boxes i texts.now) }
{
    let Some((_, rest)) = texts.split_first() else {
        return Ok(Table::new(alloc));
    };
    let mut boxes = boot_boxes(alloc, i + 1, rest)?;
    boxes.put(process_of(i), Mailbox::new(alloc))?;
    Ok(boxes)
}

// Puts users, counted from i, at the end of others.
fn push_users(users: &mut Users, i: u8, texts: &[UserText])
    requires room { i + length texts.now ≤ 8 }
    requires others { length users.old ≡ i }
    requires few { AllByRecursion IsShort texts.now }
    ensures { users.new ≡ users.old ++ boot_users i texts.now }
{
    if let Some((text, rest)) = texts.split_first() {
        users.push(boot_user(i, text));
        push_users(users, i + 1, rest);
    }
}

/// A user's own part at boot, for user i, who asks at most so much (docs/system.md, "Boot"). It is the same in the flat
/// state and over the levels.
pub fn boot_user(i: u8, text: &UserText) -> Private
    requires user { i < 8 }
    requires few { IsShort text.now }
    ensures { result ≡ boot_user i text.now }
{
    let number = u64::from(i);
    let mut path = Path::new();
    path.push(full(home_of(number)));
    path.push(root());
    Private::new(
        i,
        Uid(process_of(number)),
        count(text.phases()),
        boot_regs(number),
        path,
    )
}

// The root, the own process, the home and the scratch segment, and data 0.
fn boot_regs(i: u64) -> Registers
    requires { i < 8 }
    ensures { result ≡ boot_regs i }
{
    let mut regs = Registers::zero();
    regs.set(0, Word::Cap(root()));
    regs.set(1, Word::Cap(full(process_of(i))));
    regs.set(2, Word::Cap(full(home_of(i))));
    regs.set(3, Word::Cap(full(scratch_of(i))));
    regs
}

// The root directory as users have it.
fn root() -> Cap
    ensures { result ≡ root }
{
    capability(1, Rights::of(0x00df))
}

// The name of the scratch segment's distinguished entry.
fn scratch_name() -> Name
    ensures { result ≡ scratch_name }
{
    match Name::read(b"scratch") {
        Ok(name) => name,
        Err(_) => unreachable!(),
    }
}

// How many requests there are in phases.
fn count(phases: &[Vec<Request>]) -> u16
    requires { length (flat_map (λ p. p) (map (λ p. p.items) phases.now)) ≤ MOST_LINES + 1 }
    ensures { result ≡ length (flat_map (λ p. p) (map (λ p. p.items) phases.now)) }
{
    match phases.split_first() {
        Some((phase, later)) => phase.len() as u16 + count(later),
        None => 0,
    }
}
