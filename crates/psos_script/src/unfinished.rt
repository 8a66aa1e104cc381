// What is not finished.
ghost use Rattle.std.specs.Prelude.{◌≡◌, ◌<◌, OnOk};
ghost use Rattle.psos_limits.specs.declared.TheConstants.{MOST_LINES};
ghost use Rattle.psos_script.specs.Draft.{pending, section_in, count_in, added, phased};

use crate::section::Section;
use psos_calls::Request;
use psos_text::Name;
use std::alloc::{AllocError, Global};

/// The code block or the user that is not finished.
#[derive(Drop)]
pub(crate) enum Unfinished {
    Nothing,
    Body {
        label: Name,
        body: Vec<Request>,
    },
    /// The phases before the last, the requests of the last, and the count of its lines.
    Asking {
        name: Name,
        phases: Vec<Vec<Request>>,
        requests: Vec<Request>,
        count: usize,
    },
}

impl Unfinished {
    // Where the next line stands.
    pub(crate) fn section(&self) -> Section
        ensures { result ≡ section_in (pending self.now) }
    {
        match self {
            Unfinished::Nothing => Section::Outside,
            Unfinished::Body { .. } => Section::InBody,
            Unfinished::Asking { .. } => Section::InUser,
        }
    }

    // How many lines it has.
    pub(crate) fn count(&self) -> usize
        ensures { result ≡ count_in (pending self.now) }
    {
        match self {
            Unfinished::Nothing => 0,
            Unfinished::Body { body, .. } => body.len(),
            Unfinished::Asking { count, .. } => *count,
        }
    }

    // One request more. `Err` only where memory runs out.
    pub(crate) fn add(&mut self, request: Request) -> Result<(), AllocError>
        requires room { count_in (pending self.old) < MOST_LINES }
        ensures { OnOk result (pending self.new ≡ added (pending self.old) request) }
    {
        match self {
            Unfinished::Nothing => {}
            Unfinished::Body { body, .. } => body.push(request)?,
            Unfinished::Asking {
                requests,
                count,
                ..
            } => {
                requests.push(request)?;
                *count += 1;
            }
        }
        Ok(())
    }

    // One phase more. `Err` only where memory runs out.
    pub(crate) fn phase(&mut self, alloc: Global) -> Result<(), AllocError>
        requires room { count_in (pending self.old) < MOST_LINES }
        ensures { OnOk result (pending self.new ≡ phased (pending self.old)) }
    {
        match self {
            Unfinished::Nothing | Unfinished::Body { .. } => {}
            Unfinished::Asking {
                phases,
                requests,
                count,
                ..
            } => {
                phases.push(std::mem::replace(requests, Vec::new(alloc)))?;
                *count += 1;
            }
        }
        Ok(())
    }
}
