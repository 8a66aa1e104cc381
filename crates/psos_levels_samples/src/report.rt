// The lines that are printed.
use crate::texts::{answer_text, kind_text, refusal_text};
use psos_calls::{LevelAnswer, Refusal};
use psos_caps::Rights;
use psos_text::{put_hex4, put_number};
use psos_words::Word;
use std::alloc::{AllocError, Global};

/// The lines so far. Each has what was asked, and what was answered.
#[derive(Drop)]
pub struct Report {
    alloc: Global,
    text: Vec<u8>,
    // Memory ran out, so that some text is missing.
    is_short: bool,
}

impl Report {
    /// No line.
    pub fn new(alloc: Global) -> Report {
        Report {
            alloc,
            text: Vec::new(alloc),
            is_short: false,
        }
    }

    /// The allocator of the lines.
    pub fn alloc(&self) -> Global {
        self.alloc
    }

    /// All lines. `Err` only where memory ran out.
    pub fn into_text(self) -> Result<Vec<u8>, AllocError> {
        if self.is_short {
            return Err(AllocError);
        }
        Ok(self.text)
    }

    /// The lines of a library begin.
    pub fn library(&mut self, name: &[u8]) {
        self.put(b"== ");
        self.put(name);
        self.put(b"\n")
    }

    /// A level's answer. Of a page no word is told.
    pub fn answer<P>(&mut self, what: &[u8], answer: &LevelAnswer<P>) {
        self.begin(what);
        self.put_answer(answer);
        self.put(b"\n")
    }

    /// A level's answer on a page and a place on it.
    pub fn answer_at<P>(&mut self, what: &[u8], page: u16, off: u8, answer: &LevelAnswer<P>) {
        self.put(what);
        self.put(b" ");
        self.put_number(u64::from(page));
        self.put(b" ");
        self.put_number(u64::from(off));
        self.answer(b"", answer)
    }

    /// A number.
    pub fn number(&mut self, what: &[u8], n: u64) {
        self.begin(what);
        self.put_number(n);
        self.put(b"\n")
    }

    /// The bit that rights lack of a guard, where they lack one.
    pub fn lacking(&mut self, guard: Rights, rights: Rights, bit: Option<u8>) {
        self.put(b"guard ");
        self.put_hex(guard.bits());
        self.put(b" rights ");
        self.put_hex(rights.bits());
        match bit {
            Some(bit) => self.number(b" lacks bit", u64::from(bit)),
            None => self.put(b" passes\n"),
        }
    }

    /// A truth value.
    pub fn truth(&mut self, what: &[u8], holds: bool) {
        self.begin(what);
        self.put(if holds { b"yes\n" } else { b"no\n" })
    }

    /// A word.
    pub fn word(&mut self, what: &[u8], word: Word) {
        self.begin(what);
        self.put_word(word);
        self.put(b"\n")
    }

    /// A refusal.
    pub fn refusal(&mut self, what: &[u8], refusal: Refusal) {
        self.begin(what);
        self.put(b"no ");
        self.put_refusal(refusal);
        self.put(b"\n")
    }

    fn put(&mut self, text: &[u8]) {
        if self.text.extend_from_slice(text).is_err() {
            self.is_short = true;
        }
    }

    fn put_number(&mut self, n: u64) {
        if put_number(self.alloc, &mut self.text, n).is_err() {
            self.is_short = true;
        }
    }

    fn put_hex(&mut self, bits: u16) {
        if put_hex4(self.alloc, &mut self.text, bits).is_err() {
            self.is_short = true;
        }
    }

    fn begin(&mut self, what: &[u8]) {
        self.put(what);
        self.put(b": ")
    }

    fn put_word(&mut self, word: Word) {
        match word {
            Word::Data(n) => {
                self.put(b"data ");
                self.put_number(n)
            }
            Word::Cap(cap) => {
                self.put(b"cap ");
                self.put_number(cap.uid().0);
                self.put(b" ");
                self.put_hex(cap.rights().bits())
            }
        }
    }

    fn put_answer<P>(&mut self, answer: &LevelAnswer<P>) {
        self.put(answer_text(answer));
        match *answer {
            LevelAnswer::Entered { label, link } => {
                self.put_number(u64::from(label));
                self.put(b" ");
                self.put_word(link)
            }
            LevelAnswer::Got(word) => self.put_word(word),
            LevelAnswer::Is(kind) => self.put(kind_text(kind)),
            LevelAnswer::Guard(guard) => self.put_hex(guard.bits()),
            LevelAnswer::Rep(uid) => self.put_number(uid.0),
            LevelAnswer::At { page, off } => {
                self.put_number(u64::from(page));
                self.put(b" ");
                self.put_number(u64::from(off))
            }
            LevelAnswer::Slot(slot) => self.put_number(u64::from(slot)),
            LevelAnswer::Len(n) => self.put_number(n),
            LevelAnswer::No(refusal) => self.put_refusal(refusal),
            _ => {}
        }
    }

    fn put_refusal(&mut self, refusal: Refusal) {
        self.put(refusal_text(refusal));
        match refusal {
            Refusal::Guarded(bit) => self.put_number(u64::from(bit)),
            Refusal::Absent(kind) => self.put(kind_text(kind)),
            _ => {}
        }
    }
}
