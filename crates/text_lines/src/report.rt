// Sentences on standard error. One about a line that is refused begins with `line ` and the line's
// number, from 1; any other begins with `note: `. The runtime, the number and the scan stay
// parameters, since a struct of them is no plainer: a line gets one sentence, so that
// `tell_fault(rt, number, scan, fault)` would be `About { rt, number, scan }.tell_fault(fault)`, and
// sentences without a field would need a second struct of the first two.
ghost use Rattle.std.specs.Prelude.{◌≡◌, not};

use crate::output::Output;
use crate::parts::{Choice, Named};
use std::fmt::Display;
use text::{Fault, Scan};

const PROGRESS: u64 = 1000000;

// `line 7: ` and the words.
pub fn tell(rt: &impl Eprint, number: u64, words: impl Display + Drop) {
    let _ = eprintln!(rt; "line {number}: {words}");
}

// What is wrong with the field at which the scan of a line stopped:
// `line 7: field 3, "12x", is not a number.` Here and in the next four functions a field that is
// empty, has a tab or begins with a byte order mark is told as that.
pub fn tell_fault(rt: &impl Eprint, number: u64, scan: &Scan<'_>, fault: impl Into<Option<Fault>>) {
    match fault.into() {
        Some(fault) => tell_field(rt, number, scan, format_args!("{fault}.")),
        None => tell_field(rt, number, scan, "is right."),
    }
}

// As `tell_fault`, with the most that a number can be: `.. is too large: at most 65535.` A number
// below 0 that does not fit is too small: those with a sign reach down to -2^31.
pub fn tell_most(
    rt: &impl Eprint,
    number: u64,
    scan: &Scan<'_>,
    fault: impl Into<Option<Fault>>,
    most: u64,
) {
    let fault = fault.into();
    if fault != Some(Fault::TooLarge) {
        tell_fault(rt, number, scan, fault);
    } else if scan.bytes().starts_with(b"-") {
        tell_field(rt, number, scan, "is too small: at least -2147483648.");
    } else {
        tell_field(
            rt,
            number,
            scan,
            format_args!("is too large: at most {most}."),
        );
    }
}

// The words that can stand there, of which the field is none or for which it is missing:
// `.. is not a role: responder or initiator.`
pub fn tell_choice(
    rt: &impl Eprint,
    number: u64,
    scan: &Scan<'_>,
    what: impl Display + Drop,
    words: &[&[u8]],
) {
    let words = Choice(words);
    if scan.field().is_ok() {
        tell_field(rt, number, scan, format_args!("is not {what}: {words}."));
    } else {
        tell_field(rt, number, scan, format_args!("is missing: {words}."));
    }
}

// As `tell_fault`, with what is missing: `.. is missing: the instant.`
pub fn tell_missing(
    rt: &impl Eprint,
    number: u64,
    scan: &Scan<'_>,
    fault: impl Into<Option<Fault>>,
    what: impl Display + Drop,
) {
    let fault = fault.into();
    if scan.field().is_ok() {
        tell_fault(rt, number, scan, fault);
    } else {
        tell_field(rt, number, scan, format_args!("is missing: {what}."));
    }
}

// The field at which the scan stands, and the words: `line 7: field 3, "abc", ` and `words`.
pub fn tell_about(rt: &impl Eprint, number: u64, scan: &Scan<'_>, words: impl Display + Drop) {
    if scan.field().is_ok() {
        tell_field(rt, number, scan, words);
    } else {
        tell_fault(rt, number, scan, Fault::Missing);
    }
}

// An instant that is before one of an earlier line; it is answered all the same.
pub fn tell_early(rt: &impl Eprint, number: u64, now: u64, latest: u64) {
    let _ = eprintln!(rt;
        "note: line {number}: the instant {now} is before {latest}, an earlier line's."
    );
}

// How many lines have been read, at each million of them.
pub fn progress(rt: &impl Eprint, number: u64) {
    if number != 0 && number % PROGRESS == 0 {
        let _ = eprintln!(rt; "note: {number} lines.");
    }
}

// Writes out what is left, and tells where a write has failed.
pub fn finish<R: Print + Eprint>(out: &mut Output<'_, '_, R>, number: u64)
    ensures same_reference { out.new.buffer.ghost_name ≡ out.old.buffer.ghost_name }
    ensures buffer { out.new.buffer.now ≡ out.old.buffer.now }
    ensures at { out.new.at ≡ 0 }
{
    out.flush();
    written(out, number);
}

// Whether no write has failed; else that is told.
pub fn written<R: Print + Eprint>(out: &Output<'_, '_, R>, number: u64) -> bool
    ensures { result ≡ not out.now.failed }
{
    if out.failed {
        tell(out.rt, number, "the answers cannot be written.");
    }
    !out.failed
}

// What is odd about a field: it is empty, begins with a byte order mark or has a tab.
#[derive(Clone, Copy)]
enum Odd {
    Empty,
    Marked,
    Tab,
}

// A sentence about the field of the scan: which it is and the words, or what is odd about it.
fn tell_field(rt: &impl Eprint, number: u64, scan: &Scan<'_>, words: impl Display + Drop) {
    let field = Named(scan);
    match oddity(scan) {
        Some(Odd::Empty) => tell_empty(rt, number, scan),
        Some(Odd::Marked) => tell(rt, number, "the line begins with a byte order mark."),
        Some(Odd::Tab) => tell_spaces(
            rt,
            number,
            format_args!("field {} has a tab", text::ordinal(scan.line, scan.at)),
        ),
        None => tell(rt, number, format_args!("{field} {words}")),
    }
}

fn oddity(scan: &Scan<'_>) -> Option<Odd> {
    if scan.field().is_err() {
        return None;
    }
    let word = scan.bytes();
    if word.is_empty() {
        return Some(Odd::Empty);
    }
    if scan.at == 0 && word.starts_with(b"\xef\xbb\xbf") {
        return Some(Odd::Marked);
    }
    word.contains(&b'\t').then_some(Odd::Tab)
}

// Tells the space that makes the field empty.
fn tell_empty(rt: &impl Eprint, number: u64, scan: &Scan<'_>) {
    if scan.line.is_empty() {
        tell(rt, number, "the line is empty.");
    } else if scan.at == 0 {
        tell(rt, number, "the line begins with a space.");
    } else if scan.at == scan.line.len() {
        tell(rt, number, "the line ends with a space.");
    } else {
        let before = text::ordinal(scan.line, scan.at - 1);
        tell_spaces(rt, number, format_args!("two spaces follow field {before}"));
    }
}

fn tell_spaces(rt: &impl Eprint, number: u64, words: impl Display + Drop) {
    tell(
        rt,
        number,
        format_args!("{words}; fields are separated by single spaces."),
    );
}
