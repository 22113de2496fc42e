// Reads a caller's list of calls on a link, one a line, and writes a line for each event that the
// link tells. docs/RUNS.md has the lines, the arguments and their defaults. A line that does not
// read is told on standard error, and the program stops there.
#![tactic(auto)]

mod faults;
mod lines;
mod session;

use session::Session;
use std::io::Read;
use std::rt::Runtime;
use text_lines::{Input, Output};

fn main(rt: HostRuntime) {
    let mut buf = io::large_buffer();
    let mut room = io::large_buffer();
    let n = text_source::count(&rt);
    if n == 0 {
        filter(&rt, &mut rt.stdin(), &mut buf, &mut room);
    }
    // The lists that the arguments name, one after another.
    for i in 1..=n {
        named(&rt, i, &mut buf, &mut room);
    }
}

fn named(rt: &impl Runtime, i: usize, buf: &mut [u8], room: &mut [u8]) {
    if text_source::is_help(rt, i) {
        help(rt);
        return;
    }
    if let Some(mut source) = text_source::open(rt, i) {
        filter(rt, &mut source, buf, room);
        drop(source);
    }
}

fn help(rt: &impl Print) {
    let _ = rt.write_all(
        b"runs [FILE ..]: reads a list of calls on a link, from standard input where no file is named,
and writes what the link tells: call, instant, event, a, b. A line is one of
  open T [responder | initiator] [transport N] [lease N] [workers F] [spread N]
  poll T [workers F] [spread N] [extra N]
  frame T [slot N] [tag N] [counter N] [k F] [len N] [probe F] [body N] [workers F] [spread N] [target N] [source N]
  reply T [opened | failed] [hs N] [msg N] [transport N] [lease N]
  sent T N, wake [T], status T
  worker T [workers F] [spread N] [tag N] [k F] [counter N]
  delegated T [workers F] [spread N] [tag N]
  undelegated T [workers F] [spread N] [tag N]
  datasent T [workers F] [spread N]
  path T [workers F] [spread N] [reachable F] [srtt N]
  set NAME N .., profile NAME N .., explain F, state .., show
  memory NAME N .., current NAME N .., drained T .., pendi T .., pendr T .., candidate T ..
docs/RUNS.md has every name, docs/EVENTS.md what each event means, docs/SUPPORT.md five faults.
",
    );
}

// Each program has a loop of its own: what is written first, at the end and where a line cannot be read
// differs, and a common loop would take each of these, and the answer to a line, as a closure.
fn filter(rt: &(impl Print + Eprint), from: &mut impl Read, buf: &mut [u8], room: &mut [u8]) {
    let mut input = Input::new(from, buf);
    let mut out = Output::new(rt, room);
    let mut session = Session::new();
    out.bytes(b"call instant event a b\n");
    for number in 1..=u64::MAX {
        // What was answered is written out before the program waits for more lines.
        if input.waits() {
            out.flush();
        }
        match input.advance() {
            Ok(true) => {}
            Ok(false) => return text_lines::finish(&mut out, number),
            Err(unread) => {
                text_lines::finish(&mut out, number);
                return text_lines::tell(rt, number, unread);
            }
        }
        if !lines::respond(&mut out, &mut session, input.line(), number) {
            return;
        }
    }
}
