// The members of a journal that starts.
ghost use Rattle.std.specs.Prelude.{◌≡◌, ◌+◌, ◌<◌, ◌≤◌, ℕ, Some, slice_get, vec_len, vec_capacity};
ghost use Rattle.psos_journal.specs.Counts.{number_of, amount_of};
ghost use Rattle.psos_journal.specs.NewMembers.{AreNewMembers, AreInOrder};
ghost use Rattle.psos_journal.specs.Views.{Side, new_side};

use crate::mark::Mark;
use crate::member::Member;
use crate::names::Names;
use crate::past::Past;
use crate::six_marks::SixMarks;
use crate::told_of::ToldOf;
use std::sync::ledger::Share;

/// The members that were made so far, and what each is made with. `next` is the number of the next one.
#[derive(Drop)]
pub(crate) struct NewMembers<T: Names, E> {
    pub(crate) members: Vec<Member<T, E>>,
    pub(crate) past: Past<T, E>,
    pub(crate) tales: Share<ToldOf<T>>,
    pub(crate) next: u8,
    pub(crate) ghost made: { AreNewMembers next tales.parts tales.amount members.items (vec_capacity members) past },
}

impl<T: Names, E> NewMembers<T, E> {
    /// Makes the member of this mark.
    pub(crate) fn add(&mut self, mark: Mark<T>)
        requires mark { (number_of mark ≡ self.old.next) × (amount_of mark ≡ 0) }
        requires few { self.old.next < 24 }
        ensures { self.new.next ≡ self.old.next + 1 }
    {
        let member = Member::new(
            self.next,
            mark,
            self.past.again(),
            self.tales.split_off(1, 0),
        );
        self.members.push_reserved(member);
        self.next += 1;
    }

    /// Makes the members of these marks.
    pub(crate) fn add_six(&mut self, marks: SixMarks<T>)
        requires marks { AreInOrder self.old.next marks }
        requires few { self.old.next + 6 ≤ 24 }
        ensures { self.new.next ≡ self.old.next + 6 }
    {
        self.add(marks.first);
        self.add(marks.second);
        self.add(marks.third);
        self.add(marks.fourth);
        self.add(marks.fifth);
        self.add(marks.sixth);
    }

    /// The first of all members, so many.
    pub(crate) fn into_members(self, count: u8) -> Vec<Member<T, E>>
        requires all { self.next ≡ 24 }
        requires few { count ≤ 24 }
        ensures count { vec_len result ≡ count }
        ensures order { (k : ℕ) (m : Side E) → slice_get result.items k ≡ Some m → m ≡ new_side k }
    {
        let NewMembers { mut members, .. } = self;
        members.truncate(count as usize);
        members
    }
}
