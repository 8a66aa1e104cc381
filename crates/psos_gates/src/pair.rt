// A gate for two users.
use psos_io::Gate;
use std::sync::atomic::AtomicBool;
use std::sync::atomic::Ordering::SeqCst;
use std::thread;

// How often a user that is held looks whether it may go on.
const TURNS: u32 = 10_000_000;

/// Holds user 0 at a level until user 1 has closed a request, and user 1 at a level until user 0 stands at its own.
#[derive(Drop)]
pub(crate) struct Pair {
    levels: (u8, u8),
    stands: AtomicBool,
    closed: AtomicBool,
    late: AtomicBool,
}

impl Pair {
    pub(crate) fn new(first: u8, second: u8) -> Pair {
        Pair {
            levels: (first, second),
            stands: AtomicBool::new(false),
            closed: AtomicBool::new(false),
            late: AtomicBool::new(false),
        }
    }

    /// Whether a user was held until it had looked too often.
    pub(crate) fn is_late(&self) -> bool {
        self.late.load(SeqCst)
    }

    fn hold(&self, until: &AtomicBool) {
        'turns: for _turn in 0..TURNS {
            if until.load(SeqCst) {
                return;
            }
            thread::yield_now();
        }
        self.late.store(true, SeqCst);
    }
}

impl Gate for Pair {
    fn at(&self, user: u8, level: u8) {
        if user == 0 && level == self.levels.0 {
            self.stands.store(true, SeqCst);
            self.hold(&self.closed);
        }
        if user == 1 && level == self.levels.1 {
            self.hold(&self.stands);
        }
    }

    fn closed(&self, user: u8) {
        if user == 1 {
            self.closed.store(true, SeqCst);
        }
    }
}
