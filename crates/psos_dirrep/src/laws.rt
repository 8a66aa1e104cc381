// What the words of a directory tell, page by page, and what writing one slot changes.
ghost use Rattle.std.specs.Prelude.{◌≡◌, ℕ, ◌*◌, List, ◌++◌, ◌||◌, length, slice_get, Some, IsTrue};
ghost use Rattle.std.specs.List.{list_any};
ghost use Rattle.psos_text.specs.declared.name.Name.{Name as Value};
ghost use Rattle.psos_words.specs.declared.word.Word.{Word};
ghost use Rattle.psos_words.specs.Directory.{Entry, Slot, slots_of, decode, has_never, find, slot_for, entry_words, gone_words};
ghost use Rattle.psos_dirrep.specs.Changes.{IsWhole, HasRoom, HasAdded, HasEntry, HasRemoved};
ghost use Rattle.psos_dirrep.specs.EntryLists.{AreDirectory};
ghost use Rattle.psos_dirrep.specs.Pages.{words_of, AreSlots, find_on, slot_on, entry_slot, was_never};
ghost use Rattle.psos_dirrep.specs.Replacement.{with_words};

/// A law, and no work: the words of a new entry, written into the least slot that is not used, add that entry and no
/// other.
pub fn an_entry_is_added()
    ensures { (words : List Word) (slots : List Slot) (k : ℕ) (e : Entry) → HasRoom words slots k e → HasAdded (with_words words (4 * k) (entry_words e.name e.cap e.kept)) slots k e }
{}

/// A law, and no work: the words of a free slot, written over an entry, remove that entry and no other.
pub fn an_entry_is_removed()
    ensures { (words : List Word) (slots : List Slot) (k : ℕ) (e : Entry) → HasEntry words slots k e → HasRemoved (with_words words (4 * k) gone_words) slots k e }
{}

/// A law, and no work: the words up to one with a slot that was never used are the whole directory.
pub fn a_front_is_the_whole()
    ensures { (front rest : List Word) (n : ℕ) (slots : List Slot) → IsWhole (front ++ rest) slots → length front ≡ 4 * n → IsTrue (has_never front) → decode front ≡ Some slots }
{}

/// A law, and no work: at most eight pages of a directory, with data 0 behind them, tell of each name what the
/// directory tells. Each of them is slots in order; and where one has a slot that was never used, they also tell the
/// least slot that is not used.
pub fn pages_are_the_whole()
    ensures names { (pages : List (List Word)) (slots : List Slot) (name : Value) → AreDirectory pages slots → find slots name ≡ find_on 0 pages name }
    ensures places { (pages : List (List Word)) (slots : List Slot) → AreDirectory pages slots → IsTrue (has_never (words_of pages)) → slot_for slots ≡ entry_slot (slot_on 0 pages) }
    ensures each { (pages : List (List Word)) (slots : List Slot) (i : ℕ) (page : List Word) → AreDirectory pages slots → slice_get pages i ≡ Some page → AreSlots page }
{}

/// A law, and no work: words tell of a slot that was never used exactly where one of their slots is; and of two lists
/// of words, whole slots in the first, exactly where one of them does.
pub fn never_used_is_seen()
    ensures slots { (words : List Word) (slots : List Slot) → slots_of words ≡ Some slots → has_never words ≡ list_any was_never slots }
    ensures parts { (front rest : List Word) (n : ℕ) → length front ≡ 4 * n → has_never (front ++ rest) ≡ (has_never front || has_never rest) }
{}
