// Lines, one after another.
use crate::faults::{self, Refused};
use crate::session::Session;
use numbers::slot::Slot;
use numbers::wait::Wait;
use state::State;
use text::{Fault, Scan};
use text_args::ARGS;
use text_calls::{Link, place};
use text_form::{Named, Reader};
use text_lines::Output;
use text_records::{Part, Record};
use text_words::Call;

// What a line is: a call, or one that names fields, or another.
#[derive(Clone, Copy)]
pub(crate) enum Line {
    Call(Call),
    Part(Part),
    Explain,
    State,
    Show,
}

// The lines that are no calls, by their words.
pub(crate) static LINES: [(&[u8], Line); 11] = [
    (b"set", Line::Part(Part::Settings)),
    (b"profile", Line::Part(Part::Profile)),
    (b"explain", Line::Explain),
    (b"state", Line::State),
    (b"show", Line::Show),
    (b"memory", Line::Part(Part::Memory)),
    (b"current", Line::Part(Part::Current)),
    (b"drained", Line::Part(Part::Drained)),
    (b"pendi", Line::Part(Part::PendI)),
    (b"pendr", Line::Part(Part::PendR)),
    (b"candidate", Line::Part(Part::Candidate)),
];

// What is wrong with a line: the field at which it stopped, or that the link there cannot take it.
#[derive(Clone, Copy)]
pub(crate) enum Wrong {
    At(Fault),
    NoLink,
    NoCurrent,
    Full,
}

impl From<Fault> for Wrong {
    fn from(fault: Fault) -> Wrong {
        Wrong::At(fault)
    }
}

impl Line {
    // The line that the next field names. As that of replay, over another list: no program can use another's function.
    fn read(scan: &mut Scan<'_>) -> Option<Line> {
        Call::read(scan)
            .map(Line::Call)
            .or_else(|| scan.entry(&LINES))
    }
}

// Reads and answers line `number`, and answers whether to go on. Empty lines, and those that begin with `#`,
// are passed over. What was answered before a line that is refused is written out first. The end is
// that of replay: a common one would take the telling as a closure, and be no shorter.
pub(crate) fn respond(
    out: &mut Output<'_, '_, impl Print + Eprint>,
    session: &mut Session,
    given: &[u8],
    number: u64,
) -> bool {
    let line = &given[..text_lines::line_end(given)];
    text_lines::progress(out.rt, number);
    if line.is_empty() || line.starts_with(b"#") {
        return text_lines::written(out, number);
    }
    let mut named = Named::new(Scan::new(line));
    let Some(kind) = Line::read(&mut named.reader.scan) else {
        text_lines::finish(out, number);
        faults::first_word(out.rt, number, &named.reader.scan);
        return false;
    };
    match take(out, session, kind, &mut named, number) {
        Ok(()) => text_lines::written(out, number),
        Err(wrong) => {
            text_lines::finish(out, number);
            let refused = Refused {
                rt: out.rt,
                number,
                reader: &named.reader,
            };
            refused.tell(kind, wrong);
            false
        }
    }
}

// Session and reader stand one by one here and below: a line reads by the one and changes the other.
fn take(
    out: &mut Output<'_, '_, impl Print + Eprint>,
    session: &mut Session,
    line: Line,
    named: &mut Named<'_>,
    number: u64,
) -> Result<(), Wrong> {
    match line {
        Line::Call(call) => call_line(out, session, call, named, number),
        Line::Part(Part::Settings) => set(&mut session.cfg, named),
        Line::Part(Part::Profile) => set(&mut session.profile, named),
        Line::Part(part) => change(session, part, named),
        Line::Explain => explain(session, named),
        Line::State => given(session, named),
        Line::Show => show(out, session, named),
    }
}

// `set NAME N ..` and `profile NAME N ..`
fn set<R: Record>(r: &mut R, named: &mut Named<'_>) -> Result<(), Wrong> {
    some(named)?;
    text_records::name_record(named, r)?;
    Ok(())
}

// Sees to it that the line names anything.
fn some(named: &Named<'_>) -> Result<(), Fault> {
    if text_form::ended(&named.reader.scan) {
        return Err(Fault::NotWord);
    }
    Ok(())
}

fn explain(session: &mut Session, named: &mut Named<'_>) -> Result<(), Wrong> {
    let n = named.reader.number(1)?;
    named.reader.scan.end()?;
    session.explain = n == 1;
    Ok(())
}

// A state in the replay format stands for a link, whose instants begin anew.
fn given(session: &mut Session, named: &mut Named<'_>) -> Result<(), Wrong> {
    named.reader = Reader::by_place(named.reader.scan);
    let mut state = text_records::blank_state();
    text_records::read_state(&mut named.reader, &mut state)?;
    session.state = Some(state);
    session.latest = 0;
    Ok(())
}

// The state as a line that this program and `replay` read.
fn show(
    out: &mut Output<'_, '_, impl Print>,
    session: &Session,
    named: &Named<'_>,
) -> Result<(), Wrong> {
    let Some(state) = &session.state else {
        return Err(Wrong::NoLink);
    };
    named.reader.scan.end()?;
    runs_telling::write_state(out, state);
    Ok(())
}

// A line about the state that is there: `memory NAME N ..` and `current NAME N ..` change the named
// fields. A current epoch that there is not has no fields to change.
fn change(session: &mut Session, part: Part, named: &mut Named<'_>) -> Result<(), Wrong> {
    let link = session.link();
    let Some(state) = &mut session.state else {
        return Err(Wrong::NoLink);
    };
    match part {
        Part::Memory => {}
        Part::Current if state.cur.some => {}
        Part::Current => return Err(Wrong::NoCurrent),
        _ => {
            *state = placed(&link, part, named)?;
            return Ok(());
        }
    }
    some(named)?;
    text_records::name_part(named, part, state)?;
    Ok(())
}

// `drained T ..` and the like: a record as it is made at T, with the named fields changed. What a
// record is made like may depend on a field that is named, so the line is read twice.
fn placed(link: &Link, part: Part, named: &mut Named<'_>) -> Result<State, Wrong> {
    let now = named.reader.number(time::END)?;
    if part == Part::Candidate && 32 <= link.state.cands.len {
        return Err(Wrong::Full);
    }
    let start = *named;
    let mut first = made(link, part, now, Wait::Evidence, true);
    text_records::name_part(named, part, &mut first)?;
    *named = start;
    let wait = first.cycle.pendi.waits();
    let mut again = made(link, part, now, wait, first.drain.evidenced);
    text_records::name_part(named, part, &mut again)?;
    Ok(again)
}

fn made(link: &Link, part: Part, now: u64, wait: Wait, evidenced: bool) -> State {
    match part {
        Part::Drained => runs_placing::drained(link, now, evidenced),
        Part::PendI => runs_placing::pendi(link, now, wait.number()),
        Part::PendR => runs_placing::pendr(link, now),
        _ => runs_placing::candidate(link, now),
    }
}

// A call: what it does not name has its default, and a `wake` without an instant has that of the call
// before. Every call but `open` needs a link. A frame's tag that is not named is that of the epoch in its
// slot; of another call it is the current epoch's, which is prepared.
fn call_line(
    out: &mut Output<'_, '_, impl Print + Eprint>,
    session: &mut Session,
    call: Call,
    named: &mut Named<'_>,
    number: u64,
) -> Result<(), Wrong> {
    let mut a = [0u64; ARGS];
    text_form::prepare(call, session.tag(Slot::Current), &mut a);
    a[place::NOW] = session.time;
    text_form::read_call(named, call, &mut a)?;
    if session.state.is_none() && call != Call::Open {
        return Err(Wrong::NoLink);
    }
    if call == Call::Frame && !named.seen[place::FRAME_TAG] {
        a[place::FRAME_TAG] = session.tag(slot_of(a[place::FRAME_SLOT]));
    }
    let now = a[place::NOW];
    if let Some(latest) = session.count(call, now) {
        text_lines::tell_early(out.rt, number, now, latest);
    }
    let left = runs_telling::answer(out, session.link(), session.head(), call, &a);
    if left.is_some() {
        session.state = left;
    } else if call == Call::Open {
        session.empty();
    }
    Ok(())
}

fn slot_of(n: u64) -> Slot {
    u8::try_from(n)
        .ok()
        .and_then(Slot::of)
        .unwrap_or(Slot::Previous)
}
