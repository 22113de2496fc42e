// The forms of answers, a line that begins with `= `, or some.
use ladder::{Made, Schedule};
use leaves_requests::{Answer, Step};
use params::Params;
use settings::Check;
use text_lines::Output;

pub(crate) fn write(out: &mut Output<'_, '_, impl Print>, answer: &Result<Answer, Check>) {
    match answer {
        Ok(Answer::Number(n)) => number(out, b"=", *n),
        Ok(Answer::Made(made)) => write_made(out, made),
        Ok(Answer::Step(step)) => write_step(out, step),
        Ok(Answer::Failed(check)) => number(out, b"= place", check.map_or(0, place)),
        Ok(Answer::Hold(hold)) => number(out, b"= hold", *hold),
        Ok(Answer::Derived(params)) => write_params(out, params),
        Err(check) => number(out, b"= refused", place(*check)),
    }
    out.bytes(b"\n");
}

fn place(check: Check) -> u64 {
    u64::from(check.place())
}

// A word and its number.
fn number(out: &mut Output<'_, '_, impl Print>, word: &[u8], n: u64) {
    out.bytes(word);
    out.spaced(n);
}

fn flag(out: &mut Output<'_, '_, impl Print>, word: &[u8], on: bool) {
    number(out, word, u64::from(on));
}

// The same, with `-` for none.
fn optional(out: &mut Output<'_, '_, impl Print>, word: &[u8], n: Option<u64>) {
    out.bytes(word);
    out.spaced_or(n, b" -");
}

// The length of a schedule, its keepalive map and its offsets.
fn schedule(out: &mut Output<'_, '_, impl Print>, word: &[u8], sched: &Schedule) {
    number(out, word, u64::from(sched.len));
    out.spaced(sched.keepalive);
    for at in sched.at.iter().take(usize::from(sched.len)) {
        out.spaced(*at);
    }
}

fn write_made(out: &mut Output<'_, '_, impl Print>, made: &Made) {
    schedule(out, b"= sched", &made.sched);
    number(out, b" dropped", u64::from(made.dropped));
}

// Where nothing is taken the numbers of what is taken are 0.
fn write_step(out: &mut Output<'_, '_, impl Print>, step: &Step) {
    let left = step.left;
    optional(out, b"= next_at", step.next_at);
    flag(out, b" due", step.due);
    flag(out, b" any", step.taken.is_some());
    flag(out, b" send", step.taken.is_some_and(|t| t.send));
    number(out, b" latest", step.taken.map_or(0, |t| t.latest));
    flag(out, b" last", left.sched.len <= left.next);
    number(out, b" next", u64::from(left.next));
    number(out, b" taken", step.taken.map_or(0, |t| t.taken));
}

fn write_params(out: &mut Output<'_, '_, impl Print>, params: &Params) {
    number(out, b"= confirm", params.confirm);
    optional(out, b" span", params.span);
    number(out, b" grace", params.grace);
    number(out, b" rung", params.rung);
    number(out, b" gap", params.gap);
    number(out, b" budget", params.budget);
    number(out, b" inert", u64::from(params.inert.first));
    out.spaced(u64::from(params.inert.probes));
    schedule(out, b"\n= first", &params.first);
    schedule(out, b"\n= fin", &params.fin);
    schedule(out, b"\n= probes", &params.probes);
    schedule(out, b"\n= revert", &params.revert);
    schedule(out, b"\n= elicit", &params.elicit);
    schedule(out, b"\n= delayed", &params.delayed);
}
