// Lines of users.
ghost use Rattle.std.specs.Prelude.{◌≡◌, ◌≤◌, length, position as first_place};
ghost use Rattle.std.specs.Str.{bytes_eq};
ghost use Rattle.psos_limits.specs.declared.TheConstants.{MOST_USERS};
ghost use Rattle.psos_calls.specs.Language.Script.{UserScript};
ghost use Rattle.psos_check.specs.Reading.{user_of, is_place as place, stamp_of, stamped_in, placed_in, user_line_in};

use crate::cuts::cut;
use crate::numeral::is_numeral;
use crate::stamped::Stamped;
use psos_calls::Script;
use psos_text::read_number;

// What a line says, if it is a user line. The line feed that ends it is cut off.
#[tactic(auto, unfolding(crate::specs::Reading::user_line_in))]
pub(crate) fn user_line(script: &Script, line: &[u8]) -> Option<Stamped>
    requires { length script.now.users ≤ MOST_USERS }
    ensures { result ≡ user_line_in script.now line.now }
{
    let (name, rest) = cut(b' ', line)?;
    placed(user(script, name)?, rest)
}

// The number of the first user with this name.
#[tactic(auto, unfolding(crate::specs::Reading::user_of))]
fn user(script: &Script, name: &[u8]) -> Option<u8>
    requires { length script.now.users ≤ MOST_USERS }
    ensures { result ≡ user_of script.now name.now }
{
    match position(script, name) {
        Some(at) => Some(at as u8),
        None => None,
    }
}

fn position(script: &Script, name: &[u8]) -> Option<usize>
    ensures { result ≡ first_place (λ (u : UserScript). bytes_eq u.name name.now) script.now.users }
{
    script
        .users()
        .iter()
        .position(|user| user.name().as_bytes() == name)
}

// What stands behind the user's name.
#[tactic(auto, unfolding(crate::specs::Reading::placed_in))]
fn placed(user: u8, text: &[u8]) -> Option<Stamped>
    ensures { result ≡ placed_in user text.now }
{
    let (word, rest) = cut(b' ', text)?;
    if !is_place(word) {
        return None;
    }
    stamped(user, rest)
}

// What stands behind the place.
#[tactic(auto, unfolding(crate::specs::Reading::stamped_in))]
fn stamped(user: u8, text: &[u8]) -> Option<Stamped>
    ensures { result ≡ stamped_in user text.now }
{
    let (word, rest) = cut(b' ', text)?;
    let stamp = stamp(word)?;
    if rest.is_empty() {
        return None;
    }
    Some(Stamped { user, stamp })
}

#[tactic(auto, unfolding(crate::specs::Reading::is_place))]
fn is_place(word: &[u8]) -> bool
    ensures { result ≡ place word.now }
{
    match cut(b'/', word) {
        Some((n, m)) => is_numeral(n) && is_numeral(m),
        None => is_numeral(word),
    }
}

// The number below 2^32 behind `@`.
#[tactic(auto, unfolding(crate::specs::Reading::stamp_of))]
fn stamp(word: &[u8]) -> Option<u32>
    ensures { result ≡ stamp_of word.now }
{
    let [b'@', digits @ ..] = word else {
        return None;
    };
    let number = read_number(digits).ok()?;
    if number > 4_294_967_295 {
        return None;
    }
    Some(number as u32)
}
