// The levels and the users' own parts at boot.
ghost use Rattle.std.specs.Prelude.{true, ◌≡◌, ◌≤◌, ◌+◌, ◌*◌, ◌<◌, ◌^◌, ◌-◌, [], ◌∷◌, ◌++◌, length, map, slice_set, slice_index_or, replicate, Some, None, IfOk, OnOk};
ghost use Rattle.std.specs.List.{flat_map, AllByRecursion};
ghost use Rattle.std.specs.FinMap.{empty};
ghost use Rattle.psos_limits.specs.declared.TheConstants.{SLOTS, MOST_WORDS, MOST_OBJECTS, MOST_PAGE_FRAMES, LEAST_PAGE_FRAMES};
ghost use Rattle.psos_table.specs.Table.{at, put, size};
ghost use Rattle.psos_caps.specs.Capability.{full};
ghost use Rattle.psos_words.specs.Words.{zeros};
ghost use Rattle.psos_words.specs.Directory.{entry_words};
ghost use Rattle.psos_calls.specs.Language.Script.{IsWellFormed};
ghost use Rattle.psos_calls.specs.Levels.Level8.{IsNew};
ghost use Rattle.psos_calls.specs.declared.kind.Kind.TheVariants as kinds;
ghost use Rattle.psos_model.specs.Flat.Boot.{boot_life as life_at_boot, boot_users, scratch_of, scratch_name, guard_1};
ghost use Rattle.psos_model.specs.Replay.BootLevels.{home_slot, home_words, boot_reps as reps_at_boot, boot_scratch as scratch_at_boot, boot_objects, boot_guards};
ghost use Rattle.psos_model.specs.Replay.{boot_system};
ghost use Rattle.psos_model.specs.Flat.Within.{IsShort};
ghost use Rattle.psos_core.specs.System.{system_of};
ghost use Rattle.psos_pages.specs.Quiet.{IsQuiet};
ghost use Rattle.psos_core.specs.Booting.{first_taken, with_homes, AreBlank, boot_slots};

use crate::Levels;
use arrayvec::ArrayVec;
use psos_calls::{Kind, LevelCall, Private, Script, UserText};
use psos_caps::{Cap, Issuer, Rights, Uid};
use psos_codes::Codes;
use psos_dirs::Dirs;
use psos_io::Store;
use psos_life::Life;
use psos_limits::MOST_WORDS;
use psos_model::{boot_user, scratch_of};
use psos_pages::Pages;
use psos_procs::Procs;
use psos_segs::Segs;
use psos_types::Types;
use psos_words::Word;
use std::alloc::{AllocError, Global};

impl<B: Store> Levels<B> {
    /// The states at boot (docs/system.md, "Boot"; docs/levels.md, "Pages and slots"): the root, each user's process,
    /// home and scratch segment, and the entry of the scratch segment in each home. No page but the first of each home
    /// is touched, at most eight, and there are at least eight frames: the store stays as it was, and no call of it is
    /// made.
    ///
    /// `Err` only where memory runs out.
    pub fn boot(
        alloc: Global,
        script: &Script,
        frames: u16,
        store: B,
    ) -> Result<Levels<B>, AllocError>
        requires script { IsWellFormed script.now }
        requires least { LEAST_PAGE_FRAMES ≤ frames }
        requires most { frames ≤ MOST_PAGE_FRAMES }
        ensures booted { IfOk result (λ l. system_of l ≡ boot_system script.now) }
        ensures store { IfOk result (λ l. l.pages.store ≡ store) }
    {
        let texts = script.users();
        let mut privates = Box::new(alloc, ArrayVec::new())?;
        push_users(&mut privates, 0, texts);
        Ok(Levels {
            issuer: Issuer::new(Uid(3 + 4 * texts.len() as u64)),
            pages: boot_pages(alloc, texts, frames, store)?,
            segs: boot_segs(alloc, texts, 0, texts)?,
            types: boot_types(alloc, 0, texts)?,
            dirs: boot_dirs(alloc, 0, texts)?,
            life: boot_life(alloc, 0, texts)?,
            procs: Procs::new(alloc, texts.len() as u8)?,
            codes: Codes::new(alloc)?,
            privates,
        })
    }
}

// ---- level 7

// Takes the first slots. It changes nothing in frames and store.
fn take_slots<B: Store>(pages: &mut Pages<B>, alloc: Global, count: u16) -> Result<(), AllocError>
    requires free { pages.old.slots ≡ replicate SLOTS None }
    requires few { count ≤ SLOTS }
    ensures slots { OnOk result (pages.new.slots ≡ first_taken count) }
    ensures paging { OnOk result (pages.new.paging ≡ pages.old.paging) }
    ensures store { pages.new.store ≡ pages.old.store }
{
    if count == 0 {
        return Ok(());
    }
    take_slots(pages, alloc, count - 1)?;
    match pages.answer(alloc, &LevelCall::PageTake) {
        Ok(_) => Ok(()),
        Err(_) => Err(AllocError),
    }
}

// The entry of user i's scratch segment in its home.
fn scratch_entry(i: u8) -> [Word; 4]
    requires { i < 8 }
    ensures { result ≡ entry_words scratch_name (full (scratch_of i)) true }
{
    [
        Word::Data(2),
        // The eight bytes of the name `scratch`, the first the highest.
        Word::Data(0x7363_7261_7463_6800),
        Word::Data(0),
        Word::Cap(boot_cap(scratch_of(u64::from(i)))),
    ]
}

// Puts it into entry slot 0 of the home, whose page is brought into a free frame.
fn put_entry<B: Store>(pages: &mut Pages<B>, alloc: Global, i: u8) -> Result<(), AllocError>
    requires user { i < 8 }
    requires blank { slice_index_or pages.old.slots (home_slot i) None ≡ Some (zeros MOST_WORDS) }
    requires quiet { IsQuiet (8 - i) pages.old.paging }
    ensures quiet { OnOk result (IsQuiet (8 - (i + 1)) pages.new.paging) }
    ensures slots { OnOk result (pages.new.slots ≡ slice_set pages.old.slots (home_slot i) (Some (home_words i))) }
    ensures store { pages.new.store ≡ pages.old.store }
{
    let call = LevelCall::FourPut {
        page: 8 * (1 + 2 * u16::from(i)),
        off: 0,
        words: scratch_entry(i),
    };
    match pages.answer(alloc, &call) {
        Ok(_) => Ok(()),
        Err(_) => Err(AllocError),
    }
}

// The entries of users, counted from i, one after another.
fn put_entries<B: Store>(
    pages: &mut Pages<B>,
    alloc: Global,
    i: u8,
    texts: &[UserText],
) -> Result<(), AllocError>
    requires few { i + length texts.now ≤ 8 }
    requires blank { AreBlank i (length texts.now) pages.old.slots }
    requires quiet { IsQuiet (8 - i) pages.old.paging }
    ensures slots { OnOk result (pages.new.slots ≡ with_homes i texts.now pages.old.slots) }
    ensures store { pages.new.store ≡ pages.old.store }
{
    let Some((_, rest)) = texts.split_first() else {
        return Ok(());
    };
    put_entry(pages, alloc, i)?;
    put_entries(pages, alloc, i + 1, rest)
}

fn boot_pages<B: Store>(
    alloc: Global,
    texts: &[UserText],
    frames: u16,
    store: B,
) -> Result<Pages<B>, AllocError>
    requires few { length texts.now ≤ 8 }
    requires least { LEAST_PAGE_FRAMES ≤ frames }
    requires most { frames ≤ MOST_PAGE_FRAMES }
    ensures slots { IfOk result (λ p. p.slots ≡ boot_slots texts.now) }
    ensures store { IfOk result (λ p. p.store ≡ store) }
{
    let mut pages = Pages::new(alloc, frames, store)?;
    take_slots(&mut pages, alloc, 1 + 2 * texts.len() as u16)?;
    put_entries(&mut pages, alloc, 0, texts)?;
    Ok(pages)
}

// ---- level 8

// Makes a segment, with guard 1.
fn make_segment(
    segs: &mut Segs,
    alloc: Global,
    uid: u64,
    slot: u16,
    len: u16,
) -> Result<(), AllocError>
    requires new { IsNew segs.old uid }
    requires slot { slot < SLOTS }
    requires some { 1 ≤ len }
    requires most { len ≤ MOST_WORDS }
    ensures { OnOk result (segs.new ≡ record { segments = put segs.old.segments uid (record { slot = slot; len = len; guard = guard_1 }); windows = segs.old.windows }) }
{
    let guard = Rights::of(1);
    let call = LevelCall::SegMake {
        uid: Uid(uid),
        slot,
        len,
        guard,
    };
    match segs.act(alloc, &call) {
        Ok(_) => Ok(()),
        Err(_) => Err(AllocError),
    }
}

// The representations of the root and of the homes of users, counted from i.
fn boot_reps(alloc: Global, i: u8, texts: &[UserText]) -> Result<Segs, AllocError>
    requires { i + length texts.now ≤ 8 }
    ensures { IfOk result (λ s. s ≡ record { segments = reps_at_boot i texts.now; windows = empty }) }
{
    let Some((_, rest)) = texts.split_first() else {
        let mut segs = Segs::new(alloc)?;
        make_segment(&mut segs, alloc, 2, 0, MOST_WORDS as u16)?;
        return Ok(segs);
    };
    let mut segs = boot_reps(alloc, i + 1, rest)?;
    let uid = 5 + 4 * u64::from(i);
    make_segment(
        &mut segs,
        alloc,
        uid,
        1 + 2 * u16::from(i),
        MOST_WORDS as u16,
    )?;
    Ok(segs)
}

// These of all users, and the scratch segments of users, counted from i.
fn boot_segs(alloc: Global, all: &[UserText], i: u8, texts: &[UserText]) -> Result<Segs, AllocError>
    requires all { length all.now ≤ 8 }
    requires few { i + length texts.now ≤ 8 }
    ensures { IfOk result (λ s. s ≡ record { segments = scratch_at_boot (reps_at_boot 0 all.now) i texts.now; windows = empty }) }
{
    let Some((_, rest)) = texts.split_first() else {
        return boot_reps(alloc, 0, all);
    };
    let mut segs = boot_segs(alloc, all, i + 1, rest)?;
    let uid = 6 + 4 * u64::from(i);
    make_segment(&mut segs, alloc, uid, 2 + 2 * u16::from(i), 64)?;
    Ok(segs)
}

// ---- levels 9, 10 and 11

// Makes a directory at level 9.
fn make_object(types: &mut Types, alloc: Global, uid: u64, rep: u64) -> Result<(), AllocError>
    requires new { at types.old.objects uid ≡ None }
    requires rep { rep < 2 ^ 64 - 1 }
    ensures { OnOk result (types.new ≡ record { types = types.old.types; objects = put types.old.objects uid (record { of = None; rep = full rep }) }) }
{
    let call = LevelCall::ObjMake {
        uid: Uid(uid),
        of: None,
        rep: boot_cap(rep),
    };
    match types.act(alloc, &call) {
        Ok(_) => Ok(()),
        Err(_) => Err(AllocError),
    }
}

// The root and the homes of users, counted from i.
fn boot_types(alloc: Global, i: u8, texts: &[UserText]) -> Result<Types, AllocError>
    requires { i + length texts.now ≤ 8 }
    ensures { IfOk result (λ t. t ≡ record { types = empty; objects = boot_objects i texts.now }) }
{
    let Some((_, rest)) = texts.split_first() else {
        let mut types = Types::new(alloc)?;
        make_object(&mut types, alloc, 1, 2)?;
        return Ok(types);
    };
    let mut types = boot_types(alloc, i + 1, rest)?;
    let uid = 4 + 4 * u64::from(i);
    make_object(&mut types, alloc, uid, uid + 1)?;
    Ok(types)
}

// Makes a directory at level 10, with guard 1.
fn make_directory(dirs: &mut Dirs, alloc: Global, uid: u64) -> Result<(), AllocError>
    requires { at dirs.old uid ≡ None }
    ensures { OnOk result (dirs.new ≡ put dirs.old uid guard_1) }
{
    let call = LevelCall::DirMake {
        uid: Uid(uid),
        guard: Rights::of(1),
    };
    match dirs.act(alloc, &call) {
        Ok(_) => Ok(()),
        Err(_) => Err(AllocError),
    }
}

// The root and the homes of users, counted from i.
fn boot_dirs(alloc: Global, i: u8, texts: &[UserText]) -> Result<Dirs, AllocError>
    requires { i + length texts.now ≤ 8 }
    ensures { IfOk result (λ d. d ≡ boot_guards i texts.now) }
{
    let Some((_, rest)) = texts.split_first() else {
        let mut dirs = Dirs::new(alloc)?;
        make_directory(&mut dirs, alloc, 1)?;
        return Ok(dirs);
    };
    let mut dirs = boot_dirs(alloc, i + 1, rest)?;
    make_directory(&mut dirs, alloc, 4 + 4 * u64::from(i))?;
    Ok(dirs)
}

// The scratch segments of users, counted from i, as user objects.
fn boot_life(alloc: Global, i: u8, texts: &[UserText]) -> Result<Life, AllocError>
    requires { i + length texts.now ≤ 8 }
    ensures { IfOk result (λ l. l ≡ life_at_boot i texts.now) }
{
    let Some((_, rest)) = texts.split_first() else {
        return Life::new(alloc);
    };
    let mut life = boot_life(alloc, i + 1, rest)?;
    enrol(&mut life, alloc, 6 + 4 * u64::from(i))?;
    Ok(life)
}

// Enrols a segment.
fn enrol(life: &mut Life, alloc: Global, uid: u64) -> Result<(), AllocError>
    requires new { at life.old uid ≡ None }
    requires room { size life.old < MOST_OBJECTS }
    ensures { OnOk result (life.new ≡ put life.old uid kinds.Segment) }
{
    let call = LevelCall::Enrol {
        uid: Uid(uid),
        kind: Kind::Segment,
    };
    match life.act(alloc, &call) {
        Ok(_) => Ok(()),
        Err(_) => Err(AllocError),
    }
}

// ---- the users' own parts

// A capability of boot, with all rights.
fn boot_cap(uid: u64) -> Cap
    requires { uid < 2 ^ 64 - 1 }
    ensures { result ≡ full uid }
{
    Issuer::new(Uid(uid)).fresh()
}

// Puts the parts of users, counted from i, at the end of others.
fn push_users(privates: &mut ArrayVec<Private, 8>, i: u8, texts: &[UserText])
    requires room { i + length texts.now ≤ 8 }
    requires others { length privates.old.items ≡ i }
    requires few { AllByRecursion IsShort texts.now }
    ensures { privates.new.items ≡ privates.old.items ++ boot_users i texts.now }
{
    if let Some((text, rest)) = texts.split_first() {
        privates.push(boot_user(i, text));
        push_users(privates, i + 1, rest);
    }
}
