// Steps of a trace, one after another.
ghost use Rattle.std.specs.Prelude.{◌≡◌, ◌≤◌, ◌-◌, length, take, drop, slice_get, slice_range};
ghost use Rattle.psos_calls.specs.Plan.Asked.{pages_first};
ghost use Rattle.psos_calls.specs.Plan.Steps.{is_nothing, joined};

use crate::{Step, Trace};
use std::marker::Model;

/// Steps of a trace, one after another, that are lent. They are seen as their list.
#[derive(Drop)]
pub struct StepSlice<'a> {
    trace: &'a Trace,
    // The place of the first, and that behind the last.
    from: usize,
    to: usize,
}

impl<'a> Model for StepSlice<'a> {
    ghost use Rattle.std.specs.Prelude.{◌≤◌, List, length, slice_range};
    ghost use Rattle.psos_calls.specs.declared.step.Step.{Step};

    ghost Value = { List Step };

    ghost view = { λ s. slice_range s.trace.now s.from s.to };

    ghost invariant = { λ s. (s.from ≤ s.to) × (s.to ≤ length s.trace.now) };
}

impl<'a> StepSlice<'a> {
    // The steps of a trace from this place on.
    pub(crate) fn from(trace: &'a Trace, from: usize) -> StepSlice<'a>
        requires { from ≤ length trace.now }
        ensures { result ≡ drop from trace.now }
    {
        StepSlice {
            trace,
            from,
            to: trace.len(),
        }
    }

    /// How many there are.
    pub fn len(&self) -> usize
        ensures { result ≡ length self.now }
    {
        self.to - self.from
    }

    /// Whether there is none.
    pub fn is_empty(&self) -> bool
        ensures { result ≡ is_nothing self.now }
    {
        self.from == self.to
    }

    /// The first, and those behind it. None exactly where there is none.
    #[inline(always)]
    pub fn split_first(&self) -> Option<(Step<'a>, StepSlice<'a>)>
        ensures { self.now ≡ joined result }
    {
        if self.from == self.to {
            return None;
        }
        let rest = StepSlice {
            trace: self.trace,
            from: self.from + 1,
            to: self.to,
        };
        Some((self.trace.step(self.from), rest))
    }

    /// The first n, and those behind them.
    #[inline]
    pub fn split_at(&self, n: usize) -> (StepSlice<'a>, StepSlice<'a>)
        requires { n ≤ length self.now }
        ensures front { result.0 ≡ take n self.now }
        ensures rest { result.1 ≡ drop n self.now }
    {
        let at = self.from + n;
        let front = StepSlice {
            trace: self.trace,
            from: self.from,
            to: at,
        };
        let rest = StepSlice {
            trace: self.trace,
            from: at,
            to: self.to,
        };
        (front, rest)
    }

    /// The last. None exactly where there is none.
    #[inline(always)]
    pub fn last(&self) -> Option<Step<'a>>
        ensures { result ≡ slice_get self.now (length self.now - 1) }
    {
        if self.from == self.to {
            return None;
        }
        Some(self.trace.step(self.to - 1))
    }

    /// How many calls in front read pages. The trace knows it where all of them do, as while a directory is read.
    pub fn pages_first(&self) -> usize
        ensures value { result ≡ pages_first self.now }
        ensures within { result ≤ length self.now }
    {
        if self.to == self.trace.len() && self.len() <= self.trace.reading() {
            return self.len();
        }
        pages_from(self.trace, self.from, self.to)
    }
}

// How many calls read pages from one place on, up to another.
fn pages_from(trace: &Trace, from: usize, to: usize) -> usize
    requires ordered { from ≤ to }
    requires within { to ≤ length trace.now }
    ensures value { result ≡ pages_first (slice_range trace.now from to) }
    ensures few { result ≤ to - from }
{
    if from == to {
        return 0;
    }
    if !trace.step(from).call.reads_page() {
        return 0;
    }
    1 + pages_from(trace, from + 1, to)
}
