// The capability at a place.
ghost use Rattle.std.specs.Prelude.{◌≡◌, ◌<◌, length};
ghost use Rattle.psos_model.specs.declared.place.Place.TheVariants.{Reg, FrameReg, PathAt, SegWord, DirName, BoxAt};
ghost use Rattle.psos_model.specs.Flat.Places.{cap_in as cap_of, cap_at as cap_there};
ghost use Rattle.psos_laws.specs.Arrivals.{AreCallers, AreFull};

use psos_caps::{Cap, Uid};
use psos_model::{Flat, Place};
use psos_text::Name;
use psos_words::Word;

/// The capability at a place, if the place is there and holds one. The callers are the registers of each user's open
/// bodies but the innermost.
pub(crate) fn cap_at(flat: &Flat, callers: &[[Word; 16]], place: &Place) -> Option<Cap>
    requires full { AreFull flat.now.users }
    requires room { length callers.now ≡ 32 }
    requires callers { AreCallers flat.now.users callers.now }
    ensures { result ≡ cap_there flat.now place.now }
{
    match *place {
        Place::Reg { user, i } => register_cap(flat, user, i),
        Place::FrameReg { user, depth, i } => frame_cap(flat, callers, user, depth, i),
        Place::PathAt { user, i } => path_cap(flat, user, i),
        Place::SegWord { uid, i } => cap_of(flat.word(uid.0, i as usize)),
        Place::DirName { uid, name } => entry_cap(flat, uid, name),
        Place::BoxAt { uid, i } => message_cap(flat, uid, i),
        Place::Link { uid } => match flat.codes.get(uid.0) {
            Some(code) => cap_of(code.link),
            None => None,
        },
        Place::ImplOf { uid } => flat.rep_cap(uid.0),
    }
}

fn cap_of(word: Word) -> Option<Cap>
    ensures { result ≡ cap_of word }
{
    match word {
        Word::Cap(cap) => Some(cap),
        Word::Data(_) => None,
    }
}

fn register_cap(flat: &Flat, user: u8, i: u8) -> Option<Cap>
    requires { AreFull flat.now.users }
    ensures { result ≡ cap_there flat.now (Reg user i) }
{
    match flat.users.get(user) {
        Some(me) => { if i < 16 { cap_of(me.register(i)) } else { None } }
        None => None,
    }
}

fn frame_cap(flat: &Flat, callers: &[[Word; 16]], user: u8, depth: u8, i: u8) -> Option<Cap>
    requires full { AreFull flat.now.users }
    requires room { length callers.now ≡ 32 }
    requires callers { AreCallers flat.now.users callers.now }
    ensures { result ≡ cap_there flat.now (FrameReg user depth i) }
{
    let Some(me) = flat.users.get(user) else {
        return None;
    };
    let depth = depth as usize;
    let open = me.open_bodies();
    if i >= 16 || depth >= open {
        return None;
    }
    if depth + 1 == open {
        return cap_of(me.here(i));
    }
    cap_of(callers[4 * user as usize + depth][i as usize])
}

fn path_cap(flat: &Flat, user: u8, i: u8) -> Option<Cap>
    ensures { result ≡ cap_there flat.now (PathAt user i) }
{
    match flat.users.get(user) {
        Some(me) => {
            let i = i as usize;
            if i < me.path().len() {
                Some(me.path().get(i))
            } else {
                None
            }
        }
        None => None,
    }
}

fn entry_cap(flat: &Flat, uid: Uid, name: Name) -> Option<Cap>
    ensures { result ≡ cap_there flat.now (DirName uid name) }
{
    match flat.dirs.get(uid.0) {
        Some(dir) => match dir.names.get(&name) {
            Some(named) => Some(named.cap),
            None => None,
        },
        None => None,
    }
}

fn message_cap(flat: &Flat, uid: Uid, i: u8) -> Option<Cap>
    ensures { result ≡ cap_there flat.now (BoxAt uid i) }
{
    match flat.boxes.get(uid.0) {
        Some(mailbox) => cap_of(mailbox.word(i as usize)),
        None => None,
    }
}
