// Laws of plans and answers.
ghost use Rattle.psos_calls.specs.declared.request.Request.{Request};
ghost use Rattle.psos_agree.specs.Agreement.{Agrees, RequestsAgree, BootStands, PlansAreShort, DirectoriesAreLists};

/// From levels that stand for a sound flat state in which two identifiers are left, the plan of a user's next request
/// gives the reply of the flat answer, and levels that stand for its flat state; a refusal leaves all levels as they
/// were.
pub fn requests_agree()
    ensures { RequestsAgree }
{}

/// The levels at boot stand for the flat state of boot (docs/promises.md, "Stands for").
pub fn boot_stands()
    ensures { BootStands }
{}

/// Along the plan of each request, from levels that stand for a sound flat state in which two
/// identifiers are left, each call meets its condition; and the effect of the close can be made.
pub fn plans_run()
    ensures { (request : Request) → Agrees request }
{}

/// The plan of each request makes at most 44 calls, whatever the levels are and answer (docs/requests.md, "Plans").
pub fn plans_are_short()
    ensures { PlansAreShort }
{}

/// In levels that stand for a sound flat state, the words of each live directory's representation are an entry list
/// (docs/promises.md, "Stands for").
pub fn directories_are_lists()
    ensures { DirectoriesAreLists }
{}
