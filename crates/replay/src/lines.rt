// Lists, line by line: each line is read, and then changes the block or is answered.
use crate::blocks::{Block, Early};
use replay_answers::Kind;
use settings::Config;
use text::{Fault, Scan};
use text_args::ARGS;
use text_form::{Names, Reader};
use text_lines::Output;
use text_records::Record;
use text_words::{CALLS, Call};

// The longest buffer of a frame.
const MOST: usize = 65536;

// What a line is.
#[derive(Clone, Copy)]
enum Line {
    Begin(Kind),
    Settings,
    Profile,
    State,
    Call(Call),
}

// The lines that are no calls, by their words.
static LINES: [(&[u8], Line); 5] = [
    (b"vector", Line::Begin(Kind::Vector)),
    (b"run", Line::Begin(Kind::Run)),
    (b"cfg", Line::Settings),
    (b"profile", Line::Profile),
    (b"state", Line::State),
];

// What is wrong with a line: the field at which it stopped, or what does not stand before it.
#[derive(Clone, Copy)]
enum Wrong {
    At(Fault),
    Early(Early),
}

impl From<Fault> for Wrong {
    fn from(fault: Fault) -> Wrong {
        Wrong::At(fault)
    }
}

impl From<Early> for Wrong {
    fn from(early: Early) -> Wrong {
        Wrong::Early(early)
    }
}

impl Line {
    // The line that the next field names. As that of runs, over another list: no program can use another's function.
    fn read(scan: &mut Scan<'_>) -> Option<Line> {
        Call::read(scan)
            .map(Line::Call)
            .or_else(|| scan.entry(&LINES))
    }
}

// Writes line `number` and its answers, unless it is an answer itself, and answers whether to go on. Where it
// does not read it is told; what was answered before it is written out first. The end is that of runs: a
// common one would take the telling as a closure, and be no shorter.
pub(crate) fn respond(
    out: &mut Output<'_, '_, impl Print + Eprint>,
    block: &mut Block<'_>,
    given: &[u8],
    number: u64,
) -> bool {
    let line = &given[..text_lines::line_end(given)];
    text_lines::progress(out.rt, number);
    if line.starts_with(b"= ") {
        return text_lines::written(out, number);
    }
    let mut reader = Reader::by_place(Scan::new(line));
    let Some(kind) = Line::read(&mut reader.scan) else {
        text_lines::finish(out, number);
        tell_first_word(out.rt, number, &reader.scan);
        return false;
    };
    match take(out, block, kind, line, &mut reader) {
        Ok(()) => text_lines::written(out, number),
        Err(wrong) => {
            text_lines::finish(out, number);
            tell(out.rt, number, &reader, wrong);
            false
        }
    }
}

// Block and reader stand one by one here and below: a line reads by the one and changes the other.
fn take(
    out: &mut Output<'_, '_, impl Print>,
    block: &mut Block<'_>,
    kind: Line,
    line: &[u8],
    reader: &mut Reader<'_>,
) -> Result<(), Wrong> {
    match kind {
        Line::Begin(kind) => begin(out, block, kind, reader)?,
        Line::Settings => block.cfg = Some(record(Config::fmp(), reader)?),
        Line::Profile => block.profile = Some(record(text_records::plain_profile(), reader)?),
        Line::State => state(block, line, reader)?,
        Line::Call(Call::Frame) => return frame(out, block, line, reader),
        Line::Call(call) => return other(out, block, call, line, reader),
    }
    copy(out, line);
    Ok(())
}

fn copy(out: &mut Output<'_, '_, impl Print>, line: &[u8]) {
    out.bytes(line);
    out.bytes(b"\n");
}

// `vector N` and `run N`
fn begin(
    out: &mut Output<'_, '_, impl Print>,
    block: &mut Block<'_>,
    kind: Kind,
    reader: &mut Reader<'_>,
) -> Result<(), Fault> {
    reader.number(u64::MAX)?;
    reader.scan.end()?;
    block.close(out);
    block.begin(kind);
    Ok(())
}

// The settings or the profile. The line gives every field of the record.
fn record<R: Record + Copy>(mut r: R, reader: &mut Reader<'_>) -> Result<R, Fault> {
    text_records::read_record(reader, &mut r)?;
    Ok(r)
}

fn state(block: &mut Block<'_>, line: &[u8], reader: &mut Reader<'_>) -> Result<(), Fault> {
    let mut state = text_records::blank_state();
    text_records::read_state(reader, &mut state)?;
    block.give(state, line, reader.cut);
    Ok(())
}

// Every call but `frame`.
fn other(
    out: &mut Output<'_, '_, impl Print>,
    block: &mut Block<'_>,
    call: Call,
    line: &[u8],
    reader: &mut Reader<'_>,
) -> Result<(), Wrong> {
    let mut a = [0u64; ARGS];
    text_form::read_arguments(reader, call, &mut a)?;
    reader.scan.end()?;
    let link = block.link(call)?;
    copy(out, line);
    if let Some(left) = replay_answers::answer(out, link, block.kind, call, &a) {
        block.settle(call, left);
    }
    Ok(())
}

// `frame`, whose buffers have at most 65,536 bytes each.
fn frame(
    out: &mut Output<'_, '_, impl Print>,
    block: &mut Block<'_>,
    line: &[u8],
    reader: &mut Reader<'_>,
) -> Result<(), Wrong> {
    let mut a = [0u64; ARGS];
    let mut target = [0u8; MOST];
    let mut source = [0u8; MOST];
    text_form::read_arguments(reader, Call::Frame, &mut a)?;
    reader.most = MOST as u64;
    let m = text_hex::read(&mut reader.scan, &mut target)?.min(MOST);
    let n = text_hex::read(&mut reader.scan, &mut source)?.min(MOST);
    reader.scan.end()?;
    let link = block.link(Call::Frame)?;
    copy(out, line);
    let left = replay_answers::hand(
        out,
        link,
        block.kind,
        Call::Frame,
        &a,
        &source[..n],
        &mut target[..m],
    );
    if let Some(left) = left {
        block.settle(Call::Frame, left);
    }
    Ok(())
}

fn tell(rt: &impl Eprint, number: u64, reader: &Reader<'_>, wrong: Wrong) {
    match wrong {
        Wrong::At(Fault::NotHex) => {
            text_lines::tell_about(rt, number, &reader.scan, "is not a buffer in hex.");
        }
        Wrong::At(fault) => {
            text_lines::tell_most(rt, number, &reader.scan, fault, reader.most);
        }
        Wrong::Early(Early::State) => {
            text_lines::tell(rt, number, "a state line must stand before this call.");
        }
        Wrong::Early(Early::Given) => text_lines::tell(
            rt,
            number,
            "a cfg line and a profile line must stand before a call.",
        ),
    }
}

// The first word is none that a list can have.
fn tell_first_word(rt: &impl Eprint, number: u64, scan: &Scan<'_>) {
    let mut names = Names::new();
    for (word, _) in &LINES {
        names.push(word);
    }
    for call in CALLS {
        names.push(call.name());
    }
    text_lines::tell_choice(rt, number, scan, "a line", names.words());
}
