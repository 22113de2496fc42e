// Holds docs/EVENTS.md to the lists: every row of the page, in order, begins with what the lists of
// crates `text_lists` and `text_records` say, and no entry lacks a row. It reads the page and writes a
// line for each row that does not agree, and how many do.
#![tactic(auto)]

mod rows;

use rows::{Row, Wanted};
use std::io::Read;
use text_lines::{Input, Output};

// The row that comes next, and how many were there.
#[derive(Clone, Copy)]
struct Page {
    next: Row,
    count: u64,
}

// As that of leaves: no program can use another's function.
fn main(rt: HostRuntime) {
    let mut buf = io::large_buffer();
    let mut room = io::large_buffer();
    filter(&rt, &mut rt.stdin(), &mut buf, &mut room);
}

// A loop of its own, as runs has one: here nothing is told on standard error, and the rows that are left
// are told at the end.
fn filter(rt: &impl Print, from: &mut impl Read, buf: &mut [u8], room: &mut [u8]) {
    let mut input = Input::new(from, buf);
    let mut out = Output::new(rt, room);
    let mut page = Page {
        next: Row::FIRST,
        count: 0,
    };
    for number in 1..=u64::MAX {
        if input.advance() != Ok(true) {
            return end(&mut out, page);
        }
        let line = input.line();
        if is_row(line) {
            respond(&mut out, &mut page, line, number);
        }
    }
}

// A row of a list begins with its number or with a name; the head of a table does not.
fn is_row(line: &[u8]) -> bool {
    matches!(line, [b'|', _, b'`' | b'0'..=b'9', ..])
}

// Holds the row in line `number` to the one that comes next.
fn respond(out: &mut Output<'_, '_, impl Print>, page: &mut Page, line: &[u8], number: u64) {
    let wanted = Wanted::new(page.next);
    if wanted.begins(line) {
        page.next = page.next.next();
        page.count = page.count.saturating_add(1);
    } else {
        out.bytes(b"line ");
        out.number(number);
        tell_wanted(out, &wanted);
    }
}

fn tell_wanted(out: &mut Output<'_, '_, impl Print>, wanted: &Wanted) {
    out.bytes(b": wanted is ");
    out.bytes(&wanted.bytes);
    out.bytes(b"\n");
}

fn end(out: &mut Output<'_, '_, impl Print>, page: Page) {
    out.number(page.count);
    out.bytes(b" rows agree\n");
    if !page.next.is_done() {
        tell_wanted(out, &Wanted::new(page.next));
    }
    out.flush();
}
