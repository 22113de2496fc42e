// A filter over the replay format: blocks of settings, a profile, a state and calls. It drops each
// line that begins with `= `, and writes every other line, and behind each call the link's own
// answer. A line that does not read is told on standard error, and the program stops there.
#![tactic(auto)]

mod blocks;
mod lines;

use blocks::Block;
use std::io::Read;
use std::rt::Runtime;
use text_lines::{Input, Output};

fn main(rt: HostRuntime) {
    let mut buf = room();
    let mut out = io::large_buffer();
    let mut kept = room();
    let n = text_source::count(&rt);
    if n == 0 {
        filter(&rt, &mut rt.stdin(), &mut buf, &mut out, &mut kept);
    }
    // The lists that the arguments name, one after another.
    for i in 1..=n {
        named(&rt, i, &mut buf, &mut out, &mut kept);
    }
}

// Room for the longest line, in a function of its own, since a proof of `main` would spell every byte.
fn room() -> [u8; 524288] {
    [0u8; 524288]
}

fn named(rt: &impl Runtime, i: usize, buf: &mut [u8], room: &mut [u8], kept: &mut [u8]) {
    if text_source::is_help(rt, i) {
        let _ = rt.write_all(
            b"replay [FILE ..]: answers lists in the replay format (docs/REPLAY.md), from standard input where no file is named.\n",
        );
        return;
    }
    if let Some(mut source) = text_source::open(rt, i) {
        filter(rt, &mut source, buf, room, kept);
        drop(source);
    }
}

// A loop of its own, as runs has one: here the end of the lists ends a block, and nothing is written first.
fn filter(
    rt: &(impl Print + Eprint),
    from: &mut impl Read,
    buf: &mut [u8],
    room: &mut [u8],
    kept: &mut [u8],
) {
    let mut input = Input::new(from, buf);
    let mut out = Output::new(rt, room);
    let mut block = Block::new(kept);
    for number in 1..=u64::MAX {
        // What was answered is written out before the program waits for more lines.
        if input.waits() {
            out.flush();
        }
        match input.advance() {
            Ok(true) => {}
            Ok(false) => {
                block.close(&mut out);
                return text_lines::finish(&mut out, number);
            }
            Err(unread) => {
                text_lines::tell(rt, number, unread);
                return text_lines::finish(&mut out, number);
            }
        }
        if !lines::respond(&mut out, &mut block, input.line(), number) {
            return;
        }
    }
}
