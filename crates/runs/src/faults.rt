// What is wrong with a line, told.
use crate::lines::{LINES, Line, Wrong};
use text::{Fault, Scan};
use text_form::{Names, Reader};
use text_lines::Ascii;
use text_words::{CALLS, Call};

// The first word is none that a list can have.
pub(crate) fn first_word(rt: &impl Eprint, number: u64, scan: &Scan<'_>) {
    let mut names = Names::new();
    for call in CALLS {
        names.push(call.name());
    }
    for (word, _) in &LINES {
        names.push(word);
    }
    text_lines::tell_choice(rt, number, scan, "a line", names.words());
}

// A line that was refused, by its number, and where its reader stopped.
#[derive(Clone, Copy)]
pub(crate) struct Refused<'a, R> {
    pub(crate) rt: &'a R,
    pub(crate) number: u64,
    pub(crate) reader: &'a Reader<'a>,
}

impl<R: Eprint> Refused<'_, R> {
    pub(crate) fn tell(&self, line: Line, wrong: Wrong) {
        match wrong {
            Wrong::At(fault) => self.tell_field(line, fault),
            Wrong::NoLink => self.tell_words(
                "there is no link: a line open or state must stand before this one.",
            ),
            Wrong::NoCurrent => self.tell_words("there is no current epoch."),
            Wrong::Full => self.tell_words("32 candidates are held, and no more fit."),
        }
    }

    fn tell_words(&self, words: &str) {
        text_lines::tell(self.rt, self.number, words);
    }

    // The field at which the line stopped.
    fn tell_field(&self, line: Line, fault: Fault) {
        match line {
            Line::Call(call) => self.tell_call(call, fault),
            Line::Part(part) => self.tell_named(part.name(), &part.names(), fault),
            _ => self.tell_most(fault),
        }
    }

    // Behind the instant a choice is wanted where the call has one.
    fn tell_call(&self, call: Call, fault: Fault) {
        let scan = &self.reader.scan;
        let choice = call
            .choice()
            .filter(|_| text::ordinal(scan.line, scan.at) == 3);
        match (fault, choice) {
            (Fault::NotWord, Some(words)) => text_lines::tell_choice(
                self.rt,
                self.number,
                scan,
                words.what,
                &[words.one, words.zero],
            ),
            _ => self.tell_named(call.name(), &Names::of(call.arguments()), fault),
        }
    }

    // A field of a line that names its arguments. Field 2 is the instant, and any other that is missing a
    // value.
    fn tell_named(&self, name: &[u8], names: &Names, fault: Fault) {
        let scan = &self.reader.scan;
        match fault {
            Fault::Twice => {
                text_lines::tell_about(self.rt, self.number, scan, "names an argument again.");
            }
            Fault::NotWord => {
                let name = Ascii(name);
                let what = format_args!("an argument of {name}");
                text_lines::tell_choice(self.rt, self.number, scan, what, names.words());
            }
            Fault::Missing => {
                let what = if text::ordinal(scan.line, scan.at) == 2 {
                    "the instant, in milliseconds"
                } else {
                    "a value"
                };
                text_lines::tell_missing(self.rt, self.number, scan, fault, what);
            }
            _ => self.tell_most(fault),
        }
    }

    fn tell_most(&self, fault: Fault) {
        let reader = self.reader;
        text_lines::tell_most(self.rt, self.number, &reader.scan, fault, reader.most);
    }
}
