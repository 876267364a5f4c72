//! A plan as C for firmware: its bytes and their number, and over them, for people, what is in it.
#![tactic(auto)]

mod name;

use jobtext::{Names, put_list};
pub use name::is_name;
use page::Page;
use planfile::{high_of, list_of, low_of};
use tabletext::put_pair;

// How many bytes stand in a line.
const IN_LINE: usize = 12;

// What is in the plan, as texts that the desk reads again. A plan has no names, so nothing in them ends the comment.
fn put_comment(page: Page, plan: &[u8]) -> Page {
    let list = list_of(plan);
    let counted = drawing::put_counts(page.put(b"/* A plan of "), list).put(b".");
    let listed = put_list(counted.end().end(), list).end();
    let names = Names::none();
    put_pair(listed, low_of(plan), high_of(plan), &names).line(b"*/")
}

fn put_byte(page: Page, x: &u8) -> Page {
    page.blank(1).put(b"0x").hex(&[*x]).put(b",")
}

// A line of bytes, under what stands there.
fn put_line(page: Page, bytes: &[u8]) -> Page {
    bytes.iter().fold(page.end().blank(3), put_byte)
}

fn put_bytes(page: Page, plan: &[u8]) -> Page {
    plan.chunks(IN_LINE).fold(page, put_line).end().line(b"};")
}

fn put_length(page: Page, plan: &[u8], name: &[u8]) -> Page {
    let named = page.put(b"const size_t ").put(name).put(b"_bytes = ");
    named.number(plan.len()).line(b";")
}

/// The plan by a name of C's.
pub fn put_source(page: Page, plan: &[u8], name: &[u8]) -> Page {
    let included = put_comment(page, plan).line(b"#include <stddef.h>\n#include <stdint.h>");
    let named = included
        .end()
        .put(b"const uint8_t ")
        .put(name)
        .put(b"[] = {");
    put_length(put_bytes(named, plan), plan, name)
}
