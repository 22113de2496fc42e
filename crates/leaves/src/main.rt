// A filter that answers requests to the time, schedules, ladders and settings of a link, one a
// line, for a comparison with the Rust. It drops each line that begins with `= `, and writes every
// other line with its answer lines, which begin so. A line that does not read is told on standard
// error, and the program stops there.
#![tactic(auto)]

mod forms;

use leaves_requests::Request;
use std::io::Read;
use text::Scan;
use text_lines::{Input, Output};

// `page` has the same lines here: no crate can give another its `main`.
fn main(rt: HostRuntime) {
    let mut buf = io::large_buffer();
    let mut room = io::large_buffer();
    filter(&rt, &mut rt.stdin(), &mut buf, &mut room);
}

// The same loop stands in `replay` and `runs`. One for the three would be a public function that takes the
// step as a closure, and so the first of its crate with a `requires`: that the closure can be called.
fn filter(rt: &(impl Print + Eprint), from: &mut impl Read, buf: &mut [u8], room: &mut [u8]) {
    let mut input = Input::new(from, buf);
    let mut out = Output::new(rt, room);
    for number in 1..=u64::MAX {
        match input.advance() {
            Ok(true) => {}
            Ok(false) => return text_lines::finish(&mut out, number),
            Err(unread) => {
                text_lines::tell(rt, number, unread);
                return text_lines::finish(&mut out, number);
            }
        }
        if !respond(&mut out, input.line(), number) {
            return;
        }
    }
}

// Writes a line and its answers, unless it is an answer itself, and answers whether to go on. Where
// that fails, or the line does not read, it is told.
fn respond(out: &mut Output<'_, '_, impl Print + Eprint>, line: &[u8], number: u64) -> bool {
    if line.starts_with(b"= ") {
        return true;
    }
    let mut scan = Scan::new(line);
    match Request::read(&mut scan) {
        Ok(request) => {
            out.bytes(line);
            out.bytes(b"\n");
            forms::write(out, &request.answer());
            text_lines::written(out, number)
        }
        Err(fault) => {
            text_lines::finish(out, number);
            text_lines::tell_fault(out.rt, number, &scan, fault);
            false
        }
    }
}
