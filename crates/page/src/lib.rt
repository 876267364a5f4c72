//! Text on its way to a person: gathered on a page, which is handed on by value, and sent when it is full.
//!
//! Nothing is asked of a caller, and no piece is left out: one that is longer than a page goes by itself. Blanks are held
//! back until something follows them, so that no line ends in one.
//!
//! A piece goes on by a method of its own and not by `write!` with a `Display`: a page is handed on by value, and a method
//! cannot fail, where each `write!` answers a `Result`; a loss is kept on the page and told once, at the end.
#![tactic(auto)]

mod number;

pub use number::{after, less, lower, plus};
use std::io;
use std::io::{Error, IsTerminal};
use text::part;

// The bytes of a page.
const ROOM: usize = 1024;

// How many bytes are spelled in hex at a time.
const HEX_PIECE: usize = 256;

// Where a page goes.
#[derive(Clone, Copy)]
enum Way {
    Output,
    Errors,
}

/// What is gathered; how many blanks are held back after it; the system and where in it the page goes; and why some of it did
/// not get there. The bytes are an array and no `Vec`: that could run out of memory in the middle of a sentence.
#[derive(Drop)]
pub struct Page {
    bytes: [u8; ROOM],
    size: usize,
    blanks: usize,
    rt: HostRuntime,
    to: Way,
    lost: Option<Error>,
}

impl Page {
    fn new(rt: HostRuntime, to: Way) -> Self {
        Page {
            bytes: [0u8; ROOM],
            size: 0,
            blanks: 0,
            rt,
            to,
            lost: None,
        }
    }

    /// A page for standard output.
    pub fn output(rt: &HostRuntime) -> Self {
        Page::new(*rt, Way::Output)
    }

    /// A page for standard error.
    pub fn errors(rt: &HostRuntime) -> Self {
        Page::new(*rt, Way::Errors)
    }

    /// An empty page for standard error.
    pub fn aside(&self) -> Self {
        Page::new(self.rt, Way::Errors)
    }

    /// Whether standard output is a terminal.
    pub fn is_terminal(&self) -> bool {
        self.rt.stdout().is_terminal()
    }

    // Sends bytes past the page. After a loss no more is sent.
    fn passed(mut self, s: &[u8]) -> Self {
        if self.lost.is_none() {
            self.lost = write(&self.rt, self.to, s).err();
        }
        self
    }

    /// Sends what is gathered.
    pub fn sent(self) -> Self {
        let bytes = self.bytes;
        let size = self.size;
        let mut page = self.passed(part(&bytes, 0, size));
        page.size = 0;
        page
    }

    // The bytes put behind what is gathered, where they fit.
    fn placed(mut self, s: &[u8]) -> Self {
        let size = self.size;
        self.size = put_in(&mut self.bytes, size, s);
        self
    }

    // The bytes, on this page or on the next, or by themselves.
    fn added(self, s: &[u8]) -> Self {
        let size = self.size;
        let page = self.placed(s);
        if page.size != size {
            return page;
        }
        let next = page.sent();
        if ROOM < s.len() {
            return next.passed(s);
        }
        next.placed(s)
    }

    // The bytes k times.
    fn repeated(self, s: &[u8], k: usize) -> Self {
        let mut page = self;
        for _ in 0..k {
            page = page.added(s);
        }
        page
    }

    // The blanks that were held back, now that something follows.
    // Mostly there are none, and then the page is handed on once less: a page is a thousand bytes.
    fn spaced(self) -> Self {
        let blanks = self.blanks;
        if blanks == 0 {
            return self;
        }
        self.repeated(b" ", blanks).trimmed()
    }

    /// Puts bytes.
    pub fn put(self, s: &[u8]) -> Self {
        if s.is_empty() {
            return self;
        }
        self.spaced().added(s)
    }

    /// Puts the same bytes k times.
    pub fn fill(self, s: &[u8], k: usize) -> Self {
        if k == 0 || s.is_empty() {
            return self;
        }
        self.spaced().repeated(s, k)
    }

    /// Puts the decimal digits of a number.
    pub fn number(self, n: usize) -> Self {
        self.number_left(n, 0)
    }

    /// Puts the hex digits of bytes, two a byte.
    pub fn hex(self, s: &[u8]) -> Self {
        let mut page = self;
        for piece in s.chunks(HEX_PIECE) {
            page = page.hex_piece(piece);
        }
        page
    }

    // The hex digits of at most HEX_PIECE bytes.
    fn hex_piece(self, s: &[u8]) -> Self {
        let mut digits = [0u8; 2 * HEX_PIECE];
        let k = hex_in(&mut digits, s);
        self.put(part(&digits, 0, k))
    }

    /// Holds back k blanks.
    pub fn blank(mut self, k: usize) -> Self {
        self.blanks = plus(self.blanks, k);
        self
    }

    /// Forgets the blanks that are held back.
    pub fn trimmed(mut self) -> Self {
        self.blanks = 0;
        self
    }

    /// Ends a line.
    pub fn end(self) -> Self {
        self.trimmed().added(b"\n")
    }

    /// A line of text.
    pub fn line(self, s: &[u8]) -> Self {
        self.put(s).end()
    }

    /// Bytes, and blanks up to k columns.
    pub fn left(self, s: &[u8], k: usize) -> Self {
        self.put(s).blank(less(k, s.len()))
    }

    /// A number, and blanks up to k columns.
    pub fn number_left(self, n: usize, k: usize) -> Self {
        let mut digits = [0u8; 20];
        let size = number_in(&mut digits, n);
        self.left(part(&digits, 0, size), k)
    }

    /// A number, with blanks before it up to k columns.
    pub fn number_right(self, n: usize, k: usize) -> Self {
        self.blank(less(k, digits(n))).number(n)
    }

    /// A number and what it counts: with an s where it is not 1.
    pub fn count(self, n: usize, what: &[u8]) -> Self {
        let page = self.number(n).put(b" ").put(what);
        if n == 1 { page } else { page.put(b"s") }
    }

    /// Sends the rest; why some of the text did not get there.
    pub fn loss(self) -> Option<Error> {
        self.sent().lost
    }

    /// Sends the rest; whether all of the text got there.
    pub fn done(self) -> bool {
        self.loss().is_none()
    }
}

// Writes bytes; an error where not all of them were written.
fn write(rt: &HostRuntime, to: Way, s: &[u8]) -> io::Result<()> {
    match to {
        Way::Output => rt.stdout().write_all(s),
        Way::Errors => rt.stderr().write_all(s),
    }
}

// The calls of `text` without their contracts, which no page needs.
fn put_in(bytes: &mut [u8], at: usize, s: &[u8]) -> usize {
    text::put(bytes, at, s)
}

fn number_in(bytes: &mut [u8], n: usize) -> usize {
    text::put_number(bytes, 0, n)
}

fn hex_in(bytes: &mut [u8], s: &[u8]) -> usize {
    text::put_hex(bytes, 0, s)
}

/// How many digits a number has.
pub fn digits(n: usize) -> usize {
    n.checked_ilog10().map_or(1, |k| k as usize + 1)
}
