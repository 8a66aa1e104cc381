// The tests that several requests have, in the order of their refusals.
ghost use Rattle.std.specs.Prelude.{◌≡◌, ◌+◌, ◌≤◌, IfOk};
ghost use Rattle.psos_limits.specs.declared.TheConstants.{MOST_WORDS};
ghost use Rattle.psos_calls.specs.Language.Views.{View};
ghost use Rattle.psos_model.specs.declared.outcome.Outcome.{Outcome};
ghost use Rattle.psos_model.specs.Flat.{Directory as DirectoryValue};
ghost use Rattle.psos_model.specs.Flat.Within.{IsWithin, as_view, unless, or_refuse};
ghost use Rattle.psos_model.specs.Answer.Outcomes.{if_view, if_dir, if_room};

use crate::{Directory, Flat, FlatView};
use psos_calls::{Kind, Refusal, Right, Tab, has};
use psos_caps::Cap;
use psos_limits::MOST_ENTRIES;
use psos_text::Name;

/// The words that a capability with this right on them leads to, or why none.
pub(crate) fn view_by(flat: &Flat, cap: Cap, right: Right) -> Result<FlatView, Refusal>
    requires { IsWithin flat.now }
    ensures value { (go : View → Outcome) → if_view flat.now cap right go ≡ or_refuse result (λ v. go (as_view v)) }
    ensures small { IfOk result (λ v. v.base + v.len ≤ MOST_WORDS) }
{
    let Some(view) = flat.view(cap.uid().0) else {
        return Err(Refusal::Absent(Kind::Segment));
    };
    if !has(cap, right) {
        return Err(Refusal::Lacks(right));
    }
    Ok(view)
}

/// The directory that a capability with this right on it names, or why none.
pub(crate) fn directory_by(flat: &Flat, cap: Cap, right: Right) -> Result<&Directory, Refusal>
    ensures { (go : DirectoryValue → Outcome) → if_dir flat.now cap right go ≡ or_refuse result (λ d. go d.now) }
{
    let Some(directory) = flat.dirs.get(cap.uid().0) else {
        return Err(Refusal::Absent(Kind::Directory));
    };
    if !has(cap, right) {
        return Err(Refusal::Lacks(right));
    }
    Ok(directory)
}

/// Why no entry under this name goes into a directory.
pub(crate) fn no_entry(directory: &Directory, name: &Name) -> Option<Refusal>
    ensures { (go : Outcome) → if_room directory.now name.now go ≡ unless result go }
{
    if directory.names.get(name).is_some() {
        return Some(Refusal::NameTaken);
    }
    if directory.names.len() >= MOST_ENTRIES {
        return Some(Refusal::Exhausted(Tab::Entries));
    }
    None
}
