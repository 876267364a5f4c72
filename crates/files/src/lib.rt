//! Files, read whole and written whole; and pages, sent whole.
#![tactic(auto)]

mod why;

use page::Page;
use std::fs::OpenOptions;
use std::io::{Error, Read, Write};
use std::{fs, io};
use text::part;
pub use why::fail;

/// The bytes that are read at most: one more than a file may have.
pub const MOST: usize = 131072;

// The bytes of a file that are looked at at a time, where it is not kept.
const PIECE: usize = 4096;

// The longest path of a file with the end that its side file has.
const PATH_ROOM: usize = 4104;

/// Sends the rest of a page, and says so where some of it was lost.
pub fn send(page: Page) {
    let errors = page.aside();
    if let Some(e) = page.loss() {
        fail(errors, b"desk: standard output", e);
    }
}

/// Sends a page to standard error. Where that fails there is nowhere left to say so.
pub fn complain(page: Page) {
    page.done();
}

// The error of a path that is no text.
const NO_TEXT: i32 = 84;

// A path as the system takes it.
fn path_of(path: &[u8]) -> io::Result<&str> {
    str::from_utf8(path).map_err(|_| Error::from_raw_os_error(NO_TEXT))
}

/// Opens a file to read it.
pub fn open(rt: &HostRuntime, path: &[u8]) -> io::Result<fs::File> {
    fs::File::open(rt, path_of(path)?)
}

/// Opens a file to read it and to write over its bytes.
pub fn open_update(rt: &HostRuntime, path: &[u8]) -> io::Result<fs::File> {
    let mut how = OpenOptions::new();
    how.read(true).write(true);
    how.open(rt, path_of(path)?)
}

// Makes a file that is not there yet, and opens it to write; not by `File::create_new`, which asks to read it as well: a folder may
// allow the one and not the other.
fn open_new(rt: &HostRuntime, path: &[u8]) -> io::Result<fs::File> {
    let mut how = OpenOptions::new();
    how.write(true).create_new(true);
    how.open(rt, path_of(path)?)
}

// Reads to the end, or as many bytes as are read at most.
fn read_all(rt: &HostRuntime, file: &fs::File) -> io::Result<Vec<u8>> {
    let mut bytes = Vec::new(rt.alloc());
    file.take(MOST as u64).read_to_end(&mut bytes)?;
    Ok(bytes)
}

/// Reads what is open, and leaves it open. Where there is nothing to hand back, it was said why.
pub fn read_open(rt: &HostRuntime, file: &fs::File, path: &[u8]) -> Option<Vec<u8>> {
    match read_all(rt, file) {
        Ok(bytes) if bytes.len() < MOST => Some(bytes),
        Ok(_) => {
            let over = Page::errors(rt).put(path);
            complain(over.line(
                b": over 131,071 bytes, and no plan and no text of jobs or tables is",
            ));
            None
        }
        Err(e) => {
            fail(Page::errors(rt), path, e);
            None
        }
    }
}

/// Reads a file. Where there is nothing to hand back, it was said why.
pub fn read(rt: &HostRuntime, path: &[u8]) -> Option<Vec<u8>> {
    match open(rt, path) {
        Ok(file) => read_open(rt, &file, path),
        Err(e) => {
            fail(Page::errors(rt), path, e);
            None
        }
    }
}

// Whether what is left of a file is just these bytes. It is not kept: no memory can run out here. A proved loop ends, so it has
// a bound: no plan has as many bytes, and each read but the last gives one.
fn holds(file: &fs::File, bytes: &[u8]) -> io::Result<bool> {
    let mut piece = [0u8; PIECE];
    let mut from = file;
    let mut left = bytes;
    for _ in 0..MOST {
        let k = from.read(&mut piece)?;
        if k == 0 {
            return Ok(left.is_empty());
        }
        let Some(rest) = left.strip_prefix(part(&piece, 0, k)) else {
            return Ok(false);
        };
        left = rest;
    }
    Ok(false)
}

/// Whether a file is there that has just these bytes.
pub fn has(rt: &HostRuntime, path: &[u8], bytes: &[u8]) -> bool {
    match open(rt, path) {
        Ok(file) => holds(&file, bytes).unwrap_or(false),
        Err(_) => false,
    }
}

// Writes all, and has it on the disk.
fn put_all(file: &fs::File, bytes: &[u8]) -> io::Result<()> {
    let mut to = file;
    to.write_all(bytes)?;
    file.sync_all()
}

// Takes a file away again.
fn unlink(rt: &HostRuntime, path: &[u8]) -> io::Result<()> {
    fs::remove_file(rt, path_of(path)?)
}

// Gives a file another name.
fn rename(rt: &HostRuntime, from: &[u8], to: &[u8]) -> io::Result<()> {
    fs::rename(rt, path_of(from)?, path_of(to)?)
}

// Gives a side file the name of the path; where that fails, takes it away again.
fn put_in_place(rt: &HostRuntime, side: &[u8], path: &[u8]) -> io::Result<()> {
    let renamed = rename(rt, side, path);
    if renamed.is_err() {
        let _ = unlink(rt, side);
    }
    renamed
}

// Makes a file of these bytes that is not there yet, whole or not at all.
fn fill(rt: &HostRuntime, path: &[u8], bytes: &[u8]) -> io::Result<()> {
    let file = open_new(rt, path)?;
    let filled = put_all(&file, bytes);
    if filled.is_err() {
        let _ = unlink(rt, path);
    }
    filled
}

// Whether something was done with a file. Where not, it is said why.
fn is_done(rt: &HostRuntime, path: &[u8], done: io::Result<()>) -> bool {
    match done {
        Ok(()) => true,
        Err(e) => {
            fail(Page::errors(rt), path, e);
            false
        }
    }
}

// The path with another end. The room is an array and no `Vec`: what is told of a path that is too long for it stays, and no
// memory can run out here.
fn side_of<'a>(room: &'a mut [u8], path: &[u8]) -> &'a [u8] {
    let at = text::put(room, 0, path);
    let end = text::put(room, at, b".new");
    part(room, 0, end)
}

/// Says that a file was not written, after it was said why.
pub fn unwritten(rt: &HostRuntime, path: &[u8]) {
    complain(Page::errors(rt).put(path).line(b" was not written"));
}

/// Writes a file, whole or not at all: first beside it, as PATH.new, and then by a new name.
pub fn write(rt: &HostRuntime, path: &[u8], bytes: &[u8]) -> bool {
    let mut room = [0u8; PATH_ROOM];
    let side = side_of(&mut room, path);
    let is_written = is_done(rt, side, fill(rt, side, bytes))
        && is_done(rt, path, put_in_place(rt, side, path));
    if !is_written {
        unwritten(rt, path);
    }
    is_written
}

/// Writes a file that is not there yet: one that is there stays as it is.
pub fn create(rt: &HostRuntime, path: &[u8], bytes: &[u8]) -> bool {
    let is_made = is_done(rt, path, fill(rt, path, bytes));
    if !is_made {
        unwritten(rt, path);
    }
    is_made
}
