//! A list's bytes as text that can be read again.
use crate::list;
use crate::names::{Names, put_number};
use page::Page;

/// An edge, as it is written in a list.
pub fn put_edge(page: Page, list: &[u8], names: &Names, e: usize) -> Page {
    let first = names.put(page, list::edge_from(list, e));
    names.put(first.put(b" before "), list::edge_to(list, e))
}

// The level and the budgets.
fn put_budgets(page: Page, list: &[u8], j: usize) -> Page {
    let clo = list::ordinary(list, j);
    if list::is_high(list, j) {
        return page
            .put(b" high ")
            .number(clo)
            .put(b" ")
            .number(list::high(list, j));
    }
    page.put(b" low ").number(clo)
}

// A line for a job.
fn put_job(page: Page, list: &[u8], j: usize) -> Page {
    let named = put_number(page, j).put(b" ").number(list::arrival(list, j));
    put_budgets(named.put(b" ").number(list::deadline(list, j)), list, j).end()
}

// A line for an edge.
fn put_numbers(page: Page, list: &[u8], e: usize) -> Page {
    let first = put_number(page, list::edge_from(list, e));
    put_number(first.put(b" before "), list::edge_to(list, e)).end()
}

/// The whole list. A plan has no names, so jobs go by their numbers.
pub fn put_list(page: Page, list: &[u8]) -> Page {
    let jobs = (0..list::jobs(list)).fold(page, |to, j| put_job(to, list, j));
    (0..list::edges(list)).fold(jobs, |to, e| put_numbers(to, list, e))
}
