// The mailboxes of all processes.
ghost use Rattle.std.specs.Prelude.{◌≡◌, ◌<◌, ◌≤◌, length, IsOk, IfOk};
ghost use Rattle.psos_table.specs.Table.{size};
ghost use Rattle.psos_calls.specs.Levels.Answers.{with_any_page};
ghost use Rattle.psos_calls.specs.Levels.Level12.{act12};
ghost use Rattle.psos_procs.specs.Mailboxes.{boxes_of, no_words, AreMailboxes};

use crate::Mailbox;
use psos_calls::{LevelAnswer, LevelCall, LevelFault, NoPage, part_of};
use std::alloc::{AllocError, Global};
use std::marker::Model;

/// Level 12: the mailboxes of one to eight users (docs/levels.md, "Levels"). They are seen as a finite map from the
/// users' processes to the words of their mailboxes.
#[derive(Drop)]
pub struct Procs {
    // In the order of the users.
    boxes: Vec<Mailbox>,
}

impl Model for Procs {
    ghost use Rattle.std.specs.Coded.{coded_ℕ, coded_list};
    ghost use Rattle.std.specs.FinMap as map;
    ghost use Rattle.psos_words.specs.contracts.word.Word as word;
    ghost use Rattle.psos_calls.specs.Levels.Level12.{BoxState};
    ghost use Rattle.psos_procs.specs.Mailboxes.{boxes_of, AreMailboxes};

    ghost Value = { BoxState };

    ghost coded = { map.code coded_ℕ (coded_list word.the_row.coded) };

    ghost view = { λ p. boxes_of p.boxes.items };

    ghost invariant = { λ p. AreMailboxes p.boxes.items };
}

impl Procs {
    /// An empty mailbox for each user (docs/system.md, "Boot"). `Err` only where memory runs out.
    pub fn new(alloc: Global, users: u8) -> Result<Procs, AllocError>
        requires some { 1 ≤ users }
        requires few { users ≤ 8 }
        ensures { IfOk result (λ procs. procs ≡ no_words 0 users) }
    {
        let mut boxes = Vec::new(alloc);
        'users: for number in 0..users {
            boxes.push(Mailbox::new(number, users))?;
        }
        Ok(Procs { boxes })
    }

    /// Makes a call of level 12 (docs/levels.md, "Calls"): what it leaves and answers are those of `act12`. The
    /// answer tells no page. A refusal is the answer `No`, and changes nothing. It answers as `act12` does also where the
    /// call's condition does not hold: calls of other levels do nothing here and answer `Done`. It takes no memory, so
    /// there is no `Err`; `_alloc` and the result stand there since the calls of all levels have one form.
    pub fn act(
        &mut self,
        _alloc: Global,
        call: &LevelCall,
    ) -> Result<LevelAnswer<NoPage>, LevelFault>
        ensures made { IfOk result (λ answer. (self.new, with_any_page answer) ≡ act12 self.old call.now) }
        ensures always { IsOk result }
    {
        Ok(self.pass_on(call))
    }

    // Makes a call on the mailbox of its part.
    fn pass_on(&mut self, call: &LevelCall) -> LevelAnswer<NoPage>
        ensures { (self.new, with_any_page result) ≡ act12 self.old call.now }
    {
        let part = part_of(self.boxes.len() as u8, call);
        match self.boxes.get_mut(part as usize) {
            Some(mailbox) => mailbox.act(call),
            None => unreachable!(),
        }
    }

    /// The mailboxes, in the order of users. It takes no memory, so there is no `Err`; `_alloc` and the
    /// result are for mailboxes that do not lie in one list.
    pub fn split(self, _alloc: Global) -> Result<Vec<Mailbox>, AllocError>
        ensures always { IsOk result }
        ensures all { IfOk result (λ boxes. AreMailboxes boxes.items) }
        ensures same { IfOk result (λ boxes. boxes_of boxes.items ≡ self) }
        ensures count { IfOk result (λ boxes. length boxes.items ≡ size self) }
    {
        Ok(self.boxes)
    }

    /// The level of these mailboxes, which are all of them, in the order of users: the inverse of `split`. It takes no
    /// memory.
    pub fn join(boxes: Vec<Mailbox>) -> Procs
        requires { AreMailboxes boxes.items }
        ensures { result ≡ boxes_of boxes.items }
    {
        Procs { boxes }
    }
}
