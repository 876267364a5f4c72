//! What failed, and why, in the system's own words.
use crate::complain;
use page::{Page, less};
use std::fmt;
use std::fmt::Write;
use std::io::Error;
use text::{find, part};

// The bytes of the longest words that an error has, with its number.
const ROOM: usize = 320;

// An error's words: as the library writes them, with the error's number in brackets behind. The bytes are an array and no
// `String`: the error may be that memory has run out.
#[derive(Drop)]
struct Words {
    bytes: [u8; ROOM],
    size: usize,
}

impl Write for Words {
    fn write_str(&mut self, s: &str) -> fmt::Result {
        let size = self.size;
        self.size = put_in(&mut self.bytes, size, s.as_bytes());
        Ok(())
    }
}

// The call of `text` without its contract.
fn put_in(bytes: &mut [u8], at: usize, s: &[u8]) -> usize {
    text::put(bytes, at, s)
}

fn words_of(e: Error) -> Words {
    let mut words = Words {
        bytes: [0u8; ROOM],
        size: 0,
    };
    let _ = write!(words, "{e}");
    words
}

// What stands before the brackets, and before the blank in front of them.
fn before_number(s: &[u8]) -> &[u8] {
    let at = find(s, 0, b'(');
    if at == s.len() {
        return s;
    }
    part(s, 0, less(at, 1))
}

/// Says what failed, and why, and sends the page.
pub fn fail(page: Page, what: &[u8], e: Error) {
    let words = words_of(e);
    let reason = before_number(part(&words.bytes, 0, words.size));
    complain(page.put(what).put(b": ").line(reason));
}
