// Requests that need few locks.

/// A request, and the level of its first lock.
pub(crate) struct Request {
    pub(crate) level: u8,
    pub(crate) line: &'static [u8],
}

/// Of a mailbox, which each user has for itself.
pub(crate) const RECV: Request = Request {
    level: 12,
    line: b"recv r4",
};

/// Of a segment.
pub(crate) const WRITE: Request = Request {
    level: 8,
    line: b"write r3 0 r2",
};

/// One for each level that a request can begin with. Those of levels 11 and 10 both need level 10.
pub(crate) const REQUESTS: [Request; 7] = [
    Request {
        level: 13,
        line: b"call r0",
    },
    Request {
        level: 12,
        line: b"recv r4",
    },
    Request {
        level: 11,
        line: b"mkdir r4 r3 d 0",
    },
    Request {
        level: 10,
        line: b"path r2",
    },
    Request {
        level: 9,
        line: b"impl r4 r1 r1",
    },
    Request {
        level: 8,
        line: b"length r4 r3",
    },
    Request {
        level: 0,
        line: b"mint r4",
    },
];
