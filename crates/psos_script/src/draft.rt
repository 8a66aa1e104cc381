// What the lines so far say.
#![tactic(auto, unfolding(
// the cause of a line
crate::specs::Fault::head_cause,
// where it may not stand
crate::specs::Fault::is_outside, crate::specs::Fault::is_no_end, crate::specs::Fault::is_late_code,
// its operands
crate::specs::Fault::operands_cause, crate::specs::Values::none_left,
// what stood before
crate::specs::Fault::known_cause, crate::specs::Fault::empty_cause, crate::specs::Fault::many_cause,
// what is missing behind the last
crate::specs::Fault::end_cause, crate::specs::Fault::in_body))]

ghost use Rattle.std.specs.Prelude.{◌≡◌, ◌<◌, ◌≤◌, [], ◌∷◌, ◌++◌, length, map, OnOk, IfOk};
ghost use Rattle.psos_limits.specs.declared.TheConstants.{MOST_LINES};
ghost use Rattle.psos_text.specs.Lines.{words_of};
ghost use Rattle.psos_text.specs.Name.{name_text};
ghost use Rattle.psos_script.specs.Fault.{head_cause, row_limit_cause, end_cause as missing_cause};
ghost use Rattle.psos_script.specs.Draft.{read, seen_in, taken, Reads, closed, nothing_read, with_code, with_user, with_block, with_asker, script_of};
ghost use Rattle.psos_script.specs.declared.head.Head.TheVariants as Head;

use crate::cause::Cause;
use crate::line_fault::LineFault;
use crate::name_list::NameList;
use crate::operands::{end, only_label, only_name};
use crate::rows::request;
use crate::section::Section;
use crate::unfinished::Unfinished;
use crate::verb::Verb;
use psos_calls::{Code, Request, Script, UserText};
use psos_limits::{MOST_BODY, MOST_CODES, MOST_LINES, MOST_USERS};
use psos_text::Name;
use std::alloc::{AllocError, Global};

/// What the lines so far say: the labels and names that they have, the blocks and users that are finished, and what is
/// not finished.
#[derive(Drop)]
pub(crate) struct Draft {
    labels: NameList,
    codes: Vec<Code>,
    names: NameList,
    users: Vec<UserText>,
    unfinished: Unfinished,
}

impl Draft {
    // No line is read. It takes no memory.
    pub(crate) fn new(alloc: Global) -> Draft
        ensures { read result ≡ nothing_read }
    {
        Draft {
            labels: NameList::new(alloc),
            codes: Vec::new(alloc),
            names: NameList::new(alloc),
            users: Vec::new(alloc),
            unfinished: Unfinished::Nothing,
        }
    }

    // The line `code`, behind its first word.
    pub(crate) fn code_line(&mut self, alloc: Global, text: &[u8]) -> Result<(), LineFault>
        ensures { Reads (head_cause (seen_in (read self.old)) Head.Code (words_of text.now)) (taken (read self.old) Head.Code (words_of text.now)) result (read self.new) }
    {
        match self.unfinished.section() {
            Section::InBody => return Err(LineFault::Cause(Cause::NoEnd)),
            Section::Outside | Section::InUser => {}
        }
        if self.names.len() > 0 {
            return Err(LineFault::Cause(Cause::CodeAfterUser));
        }
        let label = match only_label(text) {
            Ok(label) => label,
            Err(c) => return Err(LineFault::Cause(c)),
        };
        if self.labels.has(label.as_bytes()) {
            return Err(LineFault::Cause(Cause::LabelTwice));
        }
        if self.labels.len() >= MOST_CODES {
            return Err(LineFault::Cause(Cause::TooManyCodes));
        }
        self.begin_code(alloc, label)?;
        Ok(())
    }

    // A block begins. `Err` only where memory runs out.
    fn begin_code(&mut self, alloc: Global, label: Name) -> Result<(), AllocError>
        requires room { length (read self.old).labels < 64 }
        ensures { OnOk result (read self.new ≡ with_code (read self.old) (name_text label)) }
    {
        self.labels.push(label)?;
        self.unfinished = Unfinished::Body {
            label,
            body: Vec::new(alloc),
        };
        Ok(())
    }

    // The line `user`, behind its first word.
    pub(crate) fn user_line(&mut self, alloc: Global, text: &[u8]) -> Result<(), LineFault>
        ensures { Reads (head_cause (seen_in (read self.old)) Head.User (words_of text.now)) (taken (read self.old) Head.User (words_of text.now)) result (read self.new) }
    {
        match self.unfinished.section() {
            Section::InBody => return Err(LineFault::Cause(Cause::NoEnd)),
            Section::Outside | Section::InUser => {}
        }
        let name = match only_name(text) {
            Ok(name) => name,
            Err(c) => return Err(LineFault::Cause(c)),
        };
        if self.names.has(name.as_bytes()) {
            return Err(LineFault::Cause(Cause::UserTwice));
        }
        if self.names.len() >= MOST_USERS {
            return Err(LineFault::Cause(Cause::TooManyUsers));
        }
        self.begin_user(alloc, name)?;
        Ok(())
    }

    // What is unfinished ends, and a user begins. `Err` only where memory runs out.
    fn begin_user(&mut self, alloc: Global, name: Name) -> Result<(), AllocError>
        requires room { length (read self.old).names < 64 }
        ensures { OnOk result (read self.new ≡ with_user (closed (read self.old)) (name_text name)) }
    {
        self.close()?;
        self.names.push(name)?;
        self.unfinished = Unfinished::Asking {
            name,
            phases: Vec::new(alloc),
            requests: Vec::new(alloc),
            count: 0,
        };
        Ok(())
    }

    // The line `end`, behind its first word.
    pub(crate) fn end_line(&mut self, text: &[u8]) -> Result<(), LineFault>
        ensures { Reads (head_cause (seen_in (read self.old)) Head.End (words_of text.now)) (taken (read self.old) Head.End (words_of text.now)) result (read self.new) }
    {
        match self.unfinished.section() {
            Section::Outside => Err(LineFault::Cause(Cause::Outside)),
            Section::InUser => Err(LineFault::Cause(Cause::Outside)),
            Section::InBody => {
                if let Err(c) = end(text) {
                    return Err(LineFault::Cause(c));
                }
                if self.unfinished.count() == 0 {
                    return Err(LineFault::Cause(Cause::EmptyCode));
                }
                self.close()?;
                Ok(())
            }
        }
    }

    // The line `phase`, behind its first word.
    pub(crate) fn phase_line(&mut self, alloc: Global, text: &[u8]) -> Result<(), LineFault>
        ensures { Reads (head_cause (seen_in (read self.old)) Head.Phase (words_of text.now)) (taken (read self.old) Head.Phase (words_of text.now)) result (read self.new) }
    {
        match self.unfinished.section() {
            Section::Outside => Err(LineFault::Cause(Cause::Outside)),
            Section::InBody => Err(LineFault::Cause(Cause::Outside)),
            Section::InUser => {
                if let Err(c) = end(text) {
                    return Err(LineFault::Cause(c));
                }
                if self.unfinished.count() >= MOST_LINES {
                    return Err(LineFault::Cause(Cause::TooManyLines));
                }
                self.unfinished.phase(alloc)?;
                Ok(())
            }
        }
    }

    // A request's line, behind its first word.
    pub(crate) fn request_line(&mut self, verb: Verb, text: &[u8]) -> Result<(), LineFault>
        ensures { Reads (head_cause (seen_in (read self.old)) (Head.Asks verb) (words_of text.now)) (taken (read self.old) (Head.Asks verb) (words_of text.now)) result (read self.new) }
    {
        match self.unfinished.section() {
            Section::Outside => Err(LineFault::Cause(Cause::Outside)),
            Section::InBody => self.add_request(verb, text, MOST_BODY),
            Section::InUser => self.add_request(verb, text, MOST_LINES),
        }
    }

    // A request where one may stand, and so many lines.
    fn add_request(&mut self, verb: Verb, text: &[u8], limit: usize) -> Result<(), LineFault>
        requires limit { limit ≤ MOST_LINES }
        ensures { Reads (row_limit_cause (seen_in (read self.old)) verb (words_of text.now) limit) (taken (read self.old) (Head.Asks verb) (words_of text.now)) result (read self.new) }
    {
        match request(verb, &self.labels, text) {
            Err(c) => Err(LineFault::Cause(c)),
            Ok(r) => {
                if self.unfinished.count() >= limit {
                    return Err(LineFault::Cause(Cause::TooManyLines));
                }
                self.unfinished.add(r)?;
                Ok(())
            }
        }
    }

    // What is unfinished ends. `Err` only where memory runs out.
    fn close(&mut self) -> Result<(), AllocError>
        ensures { OnOk result (read self.new ≡ closed (read self.old)) }
    {
        match std::mem::replace(&mut self.unfinished, Unfinished::Nothing) {
            Unfinished::Nothing => Ok(()),
            Unfinished::Body { label, body } => self.push_code(label, body),
            Unfinished::Asking {
                name,
                phases,
                requests,
                ..
            } => self.push_user(name, phases, requests),
        }
    }

    fn push_code(&mut self, label: Name, body: Vec<Request>) -> Result<(), AllocError>
        ensures { OnOk result (read self.new ≡ with_block (read self.old) (name_text label) body.items) }
    {
        self.codes.push(Code::new(label, body))?;
        Ok(())
    }

    fn push_user(
        &mut self,
        name: Name,
        phases: Vec<Vec<Request>>,
        requests: Vec<Request>,
    ) -> Result<(), AllocError>
        ensures { OnOk result (read self.new ≡ with_asker (read self.old) (name_text name) (map (λ p. p.items) phases.items ++ requests.items ∷ [])) }
    {
        let mut phases = phases;
        phases.push(requests)?;
        self.users.push(UserText::new(name, phases))?;
        Ok(())
    }

    // What is missing after the last line.
    pub(crate) fn missing(&self) -> Option<Cause>
        ensures { result ≡ missing_cause (seen_in (read self.now)) }
    {
        match self.unfinished.section() {
            Section::InBody => return Some(Cause::NoEnd),
            Section::Outside | Section::InUser => {}
        }
        if self.names.len() == 0 {
            return Some(Cause::NoUser);
        }
        None
    }

    // The script of all lines. `Err` only where memory runs out.
    pub(crate) fn finish(self) -> Result<Script, AllocError>
        ensures { IfOk result (λ s. s ≡ script_of (read self)) }
    {
        let mut draft = self;
        draft.close()?;
        Ok(Script::new(draft.users, draft.codes))
    }
}
