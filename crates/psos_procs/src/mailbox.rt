// The mailbox of a process.
ghost use Rattle.std.specs.Prelude.{◌≡◌, ◌==◌, ◌<◌, ◌≤◌, [], length};
ghost use Rattle.psos_calls.specs.Levels.Answers.{with_any_page};
ghost use Rattle.psos_calls.specs.Locks.{part_of};
ghost use Rattle.psos_procs.specs.Mailbox.{process_of, box_posted, box_drawn, act_box};

use arrayvec::ArrayVec;
use psos_calls::{Kind, LevelAnswer, LevelCall, NoPage, Refusal, Right, Tab, has, part_of};
use psos_caps::{Cap, Rights, Uid};
use psos_guards::admits;
use psos_limits::MOST_MESSAGES;
use psos_words::Word;
use std::marker::Model;

/// The mailbox of user `number` of so many `users`: at most eight words, the first to be drawn at the front. Its
/// process is 3 + 4 x `number`. It is seen as those two numbers and the list of its words.
#[derive(Drop)]
pub struct Mailbox {
    number: u8,
    users: u8,
    words: ArrayVec<Word, 8>,
}

impl Model for Mailbox {
    ghost use Rattle.std.specs.Prelude.{◌≡◌, ◌<◌, ◌≤◌, length};
    ghost use Rattle.psos_procs.specs.Mailbox as spec;

    ghost Value = { spec.Mailbox };

    ghost view = { λ b. record { number = b.number; users = b.users; words = b.words.items } };

    ghost invariant = { λ b. (b.number < b.users) × (b.users ≤ 8) × (length b.words.items ≤ 8) };
}

impl Mailbox {
    // The mailbox of a user, with no word.
    pub(crate) fn new(number: u8, users: u8) -> Mailbox
        requires user { number < users }
        requires few { users ≤ 8 }
        ensures { result ≡ record { number = number; users = users; words = [] } }
    {
        Mailbox {
            number,
            users,
            words: ArrayVec::new(),
        }
    }

    /// The number of its user. It has at most eight words.
    pub fn number(&self) -> u8
        ensures number { result ≡ self.now.number }
        ensures few { length self.now.words ≤ 8 }
    {
        self.number
    }

    /// Whether a call is of this mailbox, among those of so many users.
    pub fn has_part(&self, call: &LevelCall) -> bool
        ensures { result ≡ (part_of self.now.users call.now == self.now.number) }
    {
        part_of(self.users, call) == self.number
    }

    /// Makes a call of level 12 on this mailbox alone (docs/levels.md, "Calls"): what it leaves and answers are those
    /// of `act_box`, and so of `act12` (`mailboxes_are_parts`). The call's part is this mailbox (`has_part`): it names
    /// this mailbox's process, or no process at all and this mailbox is that of user 0. The answer tells no page.
    /// A refusal is the answer `No`, and changes nothing. Calls of other levels do nothing here and answer `Done`. It
    /// takes no memory.
    pub fn act(&mut self, call: &LevelCall) -> LevelAnswer<NoPage>
        requires { part_of self.old.users call.now ≡ self.old.number }
        ensures row { (self.new.words, with_any_page result) ≡ act_box (process_of self.old.number) self.old.words call.now }
        ensures number { self.new.number ≡ self.old.number }
        ensures users { self.new.users ≡ self.old.users }
    {
        match *call {
            LevelCall::Post { to, word } => self.post(to, word),
            LevelCall::Draw { uid } => self.draw(uid),
            _ => LevelAnswer::Done,
        }
    }

    // Whether this is the mailbox of a process.
    fn is_of(&self, uid: u64) -> bool
        ensures { result ≡ (uid == process_of self.now.number) }
    {
        uid == 3 + 4 * u64::from(self.number)
    }

    // A word goes last.
    fn post(&mut self, to: Cap, word: Word) -> LevelAnswer<NoPage>
        ensures row { (self.new.words, with_any_page result) ≡ box_posted (process_of self.old.number) self.old.words to word }
        ensures number { self.new.number ≡ self.old.number }
        ensures users { self.new.users ≡ self.old.users }
    {
        if !self.is_of(to.uid().0) {
            return LevelAnswer::No(Refusal::Absent(Kind::Process));
        }
        if !has(to, Right::Send) {
            return LevelAnswer::No(Refusal::Lacks(Right::Send));
        }
        if let Err(bit) = admits(Rights::of(1), word) {
            return LevelAnswer::No(Refusal::Guarded(bit));
        }
        if self.words.len() >= MOST_MESSAGES {
            return LevelAnswer::No(Refusal::Exhausted(Tab::Mailbox));
        }
        self.words.push(word);
        LevelAnswer::Done
    }

    // The first word goes, and is the answer.
    fn draw(&mut self, uid: Uid) -> LevelAnswer<NoPage>
        ensures row { (self.new.words, with_any_page result) ≡ act_box (process_of self.old.number) self.old.words (LevelCall.Draw uid) }
        ensures number { self.new.number ≡ self.old.number }
        ensures users { self.new.users ≡ self.old.users }
    {
        if !self.is_of(uid.0) || self.words.is_empty() {
            return LevelAnswer::No(Refusal::Empty);
        }
        LevelAnswer::Got(self.words.remove(0))
    }
}
