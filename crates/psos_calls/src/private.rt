// What one user's process keeps for itself.
ghost use Rattle.std.specs.Prelude.{◌≡◌, ◌+◌, ◌<◌, ◌≤◌, ◌^◌, [], length, slice_get, slice_set, Some};
ghost use Rattle.psos_limits.specs.declared.TheConstants.{MOST_FRAMES};
ghost use Rattle.psos_words.specs.Words.{word_at};
ghost use Rattle.psos_calls.specs.declared.effect.Effect.TheVariants.{Enter};
ghost use Rattle.psos_calls.specs.Language.User.{after, counted, settled, ended, with_reg, entered_regs, here, next_request, place_of, label_and_line, CanCount, CanMake, CanSettle};

use crate::bodies::Bodies;
use crate::{Effect, Frame, Path, Request, Script};
use psos_caps::Uid;
use psos_words::{Registers, Word};
use std::marker::Model;

/// A user's own part: its number, its process, how many of its script requests are answered, its charge, the
/// count of body requests within the present script request, its registers, its open bodies and its name space.
///
/// It is seen as a record of plain lists, in which the open bodies stand innermost first.
#[derive(Drop)]
pub struct Private {
    user: u8,
    process: u64,
    answered: u16,
    charge: u16,
    within: u16,
    regs: Registers,
    bodies: Bodies,
    path: Path,
}

impl Model for Private {
    ghost use Rattle.psos_calls.specs.Language.User.{User};

    ghost Value = { User };

    ghost view = { λ p. record {
      number = p.user;
      process = p.process;
      answered = p.answered;
      charge = p.charge;
      within = p.within;
      regs = p.regs;
      frames = p.bodies;
      path = p.path;
    } };
}

impl Private {
    /// A user's part with no request answered and no body open.
    pub fn new(user: u8, process: Uid, charge: u16, regs: Registers, path: Path) -> Private
        ensures { result ≡ record {
          number = user;
          process = process.0;
          answered = 0;
          charge = charge;
          within = 0;
          regs = regs;
          frames = [];
          path = path;
        } }
    {
        Private {
            user,
            process: process.0,
            answered: 0,
            charge,
            within: 0,
            regs,
            bodies: Bodies::new(),
            path,
        }
    }

    /// The user's number.
    pub fn number(&self) -> u8
        ensures { result ≡ self.now.number }
    {
        self.user
    }

    /// The process that runs it.
    pub fn process(&self) -> Uid
        ensures { result.0 ≡ self.now.process }
    {
        Uid(self.process)
    }

    /// How many script requests are answered.
    pub fn answered(&self) -> u16
        ensures { result ≡ self.now.answered }
    {
        self.answered
    }

    /// Its charge.
    pub fn charge(&self) -> u16
        ensures { result ≡ self.now.charge }
    {
        self.charge
    }

    /// How many requests of bodies are answered within the present script request.
    pub fn within(&self) -> u16
        ensures { result ≡ self.now.within }
    {
        self.within
    }

    /// How many bodies are open.
    pub fn open_bodies(&self) -> usize
        ensures count { result ≡ length self.now.frames }
        ensures few { result ≤ MOST_FRAMES }
    {
        self.bodies.len()
    }

    /// The code block of the innermost open body, and how many of its lines are answered.
    pub fn label_and_line(&self) -> Option<(u8, u8)>
        ensures { result ≡ label_and_line self.now.frames }
    {
        match self.bodies.innermost() {
            Some(frame) => Some((frame.label, frame.line)),
            None => None,
        }
    }

    /// The name space.
    pub fn path(&self) -> &Path
        ensures { result.now ≡ self.now.path }
    {
        &self.path
    }

    /// The word in register i, where no body is open.
    pub fn register(&self, i: u8) -> Word
        requires { i < 16 }
        ensures { slice_get self.now.regs i ≡ Some result }
    {
        self.regs.get(i)
    }

    /// The word in register i of those that requests name: the innermost open body's, or the user's own.
    pub fn here(&self, i: u8) -> Word
        requires { i < 16 }
        ensures word { slice_get (here self.now) i ≡ Some result }
        ensures at { word_at (here self.now) i ≡ result }
    {
        self.registers_here().get(i)
    }

    fn registers_here(&self) -> &Registers
        ensures { result.now ≡ here self.now }
    {
        match self.bodies.innermost() {
            Some(frame) => &frame.regs,
            None => &self.regs,
        }
    }

    /// What the user asks next: a line of the innermost open body, or a request of the script.
    pub fn next_request(&self, script: &Script) -> Option<Request>
        ensures { result ≡ next_request script.now self.now }
    {
        match self.bodies.innermost() {
            Some(frame) => script.body(frame.label).get(frame.line as usize).copied(),
            None => script.request(self.user, self.answered as usize),
        }
    }

    /// The place of that request: `(n, 0)`, or `(n, m)` within a body.
    pub fn place(&self) -> (u16, u16)
        requires answered { self.now.frames ≡ [] → self.now.answered + 1 < 2 ^ 16 }
        requires within { 0 < length self.now.frames → self.now.within + 1 < 2 ^ 16 }
        ensures { result ≡ place_of self.now }
    {
        if self.bodies.len() == 0 {
            (self.answered + 1, 0)
        } else {
            (self.answered, self.within + 1)
        }
    }

    /// Makes the change of a request that closes with this effect: it is counted, the effect is made, and bodies
    /// with no line left end. It takes no memory.
    pub fn settle(&mut self, effect: &Effect, script: &Script)
        requires { CanSettle self.old effect.now }
        ensures { self.new ≡ after script.now self.old effect.now }
    {
        self.count();
        self.make(effect);
        self.end_bodies(script);
    }

    // Counts a line of the innermost open body, or a script request.
    fn count(&mut self)
        requires { CanCount self.old self.old.frames }
        ensures { self.new ≡ counted self.old self.old.frames }
    {
        if self.bodies.len() == 0 {
            self.answered += 1;
            self.within = 0;
        } else {
            self.within += 1;
            self.bodies.count_line();
        }
    }

    fn make(&mut self, effect: &Effect)
        requires { CanMake self.old effect.now }
        ensures { self.new ≡ settled self.old effect.now }
    {
        match effect {
            Effect::Nothing => {}
            Effect::Put(i, word) => self.put(*i, *word),
            Effect::Push(cap) => self.path.push(*cap),
            Effect::Enter { label, link } => self.enter(*label, *link),
        }
    }

    // Puts a word into register i of the innermost open body, or of the user.
    fn put(&mut self, i: u8, word: Word)
        requires { i < 16 }
        ensures { self.new ≡ with_reg self.old self.old.frames i word }
    {
        if self.bodies.len() == 0 {
            self.regs.set(i, word);
        } else {
            self.bodies.put(i, word);
        }
    }

    fn enter(&mut self, label: u8, link: Word)
        requires few { length self.old.frames < MOST_FRAMES }
        requires charge { self.old.charge + 16 < 2 ^ 16 }
        ensures { self.new ≡ settled self.old (Enter label link) }
    {
        let regs = entered_regs(self.registers_here(), link);
        self.charge += 16;
        self.bodies.enter(Frame {
            regs,
            label,
            line: 0,
        });
    }

    // Ends the bodies that have no line left, and copies r4 of the innermost of them outward.
    fn end_bodies(&mut self, script: &Script)
        ensures { self.new ≡ ended script.now self.old self.old.frames }
    {
        if self.bodies.is_over(script) {
            let word = self.here(4);
            self.bodies.leave_ended(script);
            self.put(4, word);
        }
    }
}

// The registers of a body that is entered from where these are named.
fn entered_regs(caller: &Registers, link: Word) -> Registers
    ensures { result ≡ entered_regs caller.now link }
{
    let mut regs = Registers::zero();
    regs.set(4, caller.get(4));
    regs.set(5, caller.get(5));
    regs.set(6, caller.get(6));
    regs.set(7, caller.get(7));
    regs.set(14, link);
    regs
}

impl Default for Private {
    fn default() -> Private {
        Private::new(0, Uid(0), 0, Registers::zero(), Path::new())
    }
}
