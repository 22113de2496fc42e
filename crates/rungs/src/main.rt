// Reads one line, `probes FIRST COUNT END GAP` or `doubling FIRST COUNT` with or without END, and
// writes the rungs of that schedule and how many were dropped. Anything else is told on standard
// error, and then nothing is written.
#![tactic(auto)]

use ladder::{Made, Schedule};
use std::io::Read;
use text::{Fault, Scan};
use text_lines::{Input, Output};

const MOST_COUNT: u64 = 255;

// Which schedule the line asks for.
#[derive(Clone, Copy)]
enum Asked {
    Probes,
    Doubling,
}

static WORDS: [(&[u8], Asked); 2] = [(b"probes", Asked::Probes), (b"doubling", Asked::Doubling)];

fn main(rt: HostRuntime) {
    let mut lines = io::large_buffer();
    let mut rows = io::buffer();
    let mut reader = rt.stdin();
    let mut input = Input::new(&mut reader, &mut lines);
    let mut out = Output::new(&rt, &mut rows);
    run(&rt, &mut input, &mut out);
}

fn run(rt: &impl Eprint, input: &mut Input<'_, impl Read>, out: &mut Output<'_, '_, impl Print>) {
    match input.advance() {
        Ok(true) => {
            if let Some(made) = read(rt, input.line()) {
                if ends(rt, input) && !write(out, made) {
                    text_lines::tell(rt, 1, "standard output cannot be written.");
                }
            }
        }
        Ok(false) => text_lines::tell(rt, 1, "there is no line."),
        Err(unread) => text_lines::tell(rt, 1, unread),
    }
}

// Reads the line, without a carriage return at its end, or tells what is wrong with it.
fn read(rt: &impl Eprint, line: &[u8]) -> Option<Made> {
    let n = text_lines::line_end(line);
    let mut scan = Scan::new(&line[..n]);
    match read_schedule(&mut scan) {
        Ok(made) => Some(made),
        Err(fault) => {
            tell_fault(rt, &scan, fault);
            None
        }
    }
}

fn read_schedule(scan: &mut Scan<'_>) -> Result<Made, Fault> {
    let asked = scan.entry(&WORDS).ok_or(Fault::NotWord)?;
    let first = scan.number(u64::MAX)?;
    let count = u8::try_from(scan.number(MOST_COUNT)?).unwrap_or(u8::MAX);
    let made = match asked {
        Asked::Probes => {
            let end = scan.number(u64::MAX)?;
            let gap = scan.number(u64::MAX)?;
            Schedule::probes(first, count, end, gap)
        }
        Asked::Doubling if scan.end().is_ok() => Schedule::doubling(first, count, None),
        Asked::Doubling => {
            let end = scan.number(u64::MAX)?;
            Schedule::doubling(first, count, Some(end))
        }
    };
    scan.end()?;
    Ok(made)
}

// Whether nothing but empty lines follows the first line; else it is told. `all` over the lines would not do: a reader that fails
// is told otherwise than a line too many.
fn ends(rt: &impl Eprint, input: &mut Input<'_, impl Read>) -> bool {
    for number in 2..u64::MAX {
        match input.advance() {
            Ok(true) if input.line().is_empty() => (),
            Ok(true) => {
                text_lines::tell(rt, number, "only one line is read.");
                return false;
            }
            Ok(false) => return true,
            Err(unread) => {
                text_lines::tell(rt, number, unread);
                return false;
            }
        }
    }
    false
}

// Tells a fault in the one line. The fields' names stand in a `match` on the field's number: a table would be read at that number
// less 2, with a case beside it for what is past its end.
fn tell_fault(rt: &impl Eprint, scan: &Scan<'_>, fault: Fault) {
    let (name, most) = match text::ordinal(scan.line, scan.at) {
        2 => ("FIRST", u64::MAX),
        3 => ("COUNT", MOST_COUNT),
        4 => ("END", u64::MAX),
        _ => ("GAP", u64::MAX),
    };
    match fault {
        Fault::NotWord => {
            text_lines::tell(rt, 1, "the first word must be probes or doubling.");
        }
        Fault::Extra => text_lines::tell(rt, 1, "there is a field too many."),
        Fault::Missing => text_lines::tell(rt, 1, format_args!("{name} is missing.")),
        _ => text_lines::tell(
            rt,
            1,
            format_args!("{name} must be a number from 0 to {most}."),
        ),
    }
}

// Writes a line for each rung, its place, its kind and its offset, and answers whether all could be
// written.
fn write(out: &mut Output<'_, '_, impl Print>, made: Made) -> bool {
    let sched = made.sched;
    out.bytes(b"rung kind offset\n");
    for (i, offset) in sched.at.iter().take(sched.rungs()).enumerate() {
        out.number(i as u64);
        out.bytes(kind(sched.keepalive, i));
        out.spaced(*offset);
        out.bytes(b"\n");
    }
    out.bytes(b"dropped");
    out.spaced(u64::from(made.dropped));
    out.bytes(b"\n");
    out.flush()
}

// Bit `i` of `map` is set where rung `i` is a keepalive. ladder's own test of it is private, and asks that the rung is there.
fn kind(map: u64, i: usize) -> &'static [u8] {
    if i < 64 && (map >> (i as u64)) % 2 == 1 {
        b" keepalive"
    } else {
        b" send"
    }
}
