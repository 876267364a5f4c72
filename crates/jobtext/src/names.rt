//! The names of jobs, in arrays and not in a `Vec`: a list has few jobs and a name few bytes, so names are copied, and need no allocator.
ghost use Rattle.std.specs.Prelude.{◌≡◌, ◌≤◌, ℕ, List, [], ◌∷◌, ◌++◌, length, if◌then◌else◌};
ghost use Rattle.std.specs.List.{position};
ghost use Rattle.std.specs.Str.{bytes_eq};

use joblist::MOST_JOBS;
use page::{Page, after, lower};

// The bytes of the longest name.
const MOST_NAME: usize = 32;

// The bytes of a name, in a room for the most.
#[derive(Clone, Copy)]
struct Name {
    letters: [u8; MOST_NAME],
    size: usize,
    ghost fits: { size ≤ 32 },
}

impl Name {
    ghost use Rattle.jobtext.specs.Names.{bytes_in};

    // No bytes.
    fn none() -> Self
        ensures { bytes_in result ≡ [] }
    {
        Name {
            letters: [0; MOST_NAME],
            size: 0,
        }
    }

    // These bytes.
    fn of(s: &[u8]) -> Self
        requires { length s.now ≤ 32 }
        ensures { bytes_in result ≡ s.now }
    {
        let mut letters = [0; MOST_NAME];
        letters[..s.len()].copy_from_slice(s);
        Name {
            letters,
            size: s.len(),
        }
    }

    fn bytes(&self) -> &[u8]
        ensures { result.now ≡ bytes_in self.now }
    {
        &self.letters[..self.size]
    }
}

/// The name of each job. A job that has none goes by its number.
#[derive(Clone, Copy)]
pub struct Names {
    names: [Name; MOST_JOBS],
    count: usize,
    ghost few: { count ≤ 64 },
}

impl Names {
    ghost use Rattle.jobtext.specs.Names.{name_in, names_of};

    /// Every job goes by its number.
    pub fn none() -> Self
        ensures { names_of result ≡ [] }
    {
        Names {
            names: [Name::none(); MOST_JOBS],
            count: 0,
        }
    }

    // One name more, of the next job, where there is room for it.
    pub(crate) fn add(&mut self, name: &[u8]) -> bool
        ensures { names_of self.new ≡ (if result then names_of self.old ++ name.now ∷ [] else names_of self.old) }
    {
        let has_room = name.len() <= MOST_NAME && self.count < MOST_JOBS;
        if has_room {
            self.names[self.count] = Name::of(name);
            self.count += 1;
        }
        has_room
    }

    /// The bytes of a job's name; none where it goes by its number.
    pub fn letters(&self, j: usize) -> &[u8]
        ensures { result.now ≡ name_in (names_of self.now) j }
    {
        match self.names[..self.count].get(j) {
            Some(name) => name.bytes(),
            None => b"",
        }
    }

    /// How many bytes a job's name has; 0 where it goes by its number.
    pub fn size(&self, j: usize) -> usize
        ensures { result ≡ length (name_in (names_of self.now) j) }
    {
        self.letters(j).len()
    }

    /// How many columns a job's name takes, or its number with the letter j.
    pub fn width(&self, j: usize) -> usize {
        match self.size(j) {
            0 => after(page::digits(j)),
            size => size,
        }
    }

    /// The job of a name.
    pub fn job_of(&self, name: &[u8]) -> Option<usize>
        ensures { result ≡ position (λ n. bytes_eq n name.now) (names_of self.now) }
    {
        self.names[..self.count]
            .iter()
            .position(|n| n.bytes() == name)
    }

    /// Puts a job's name, or no more of it than k bytes; its number where it goes by that.
    pub fn put_start(&self, page: Page, j: usize, k: usize) -> Page {
        let name = self.letters(j);
        if name.is_empty() {
            return put_number(page, j);
        }
        page.put(&name[..lower(k, name.len())])
    }

    /// Puts a job's name.
    pub fn put(&self, page: Page, j: usize) -> Page {
        self.put_start(page, j, MOST_NAME)
    }
}

// Puts the number of a job, as one without a name goes by.
pub(crate) fn put_number(page: Page, j: usize) -> Page {
    page.put(b"j").number(j)
}

// Bytes that can name a job, as text.
pub(crate) fn name_of(s: &[u8]) -> Option<&str> {
    if MOST_NAME < s.len() || !s.iter().all(|x| x.is_ascii_graphic()) {
        return None;
    }
    str::from_utf8(s).ok()
}
