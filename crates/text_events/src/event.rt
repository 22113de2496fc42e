// Events of a log, written. An event is the words of its place: its number, and then what its fields
// tell, from the front on.
ghost use Rattle.std.specs.Prelude.{◌≡◌, [], drop};
ghost use Rattle.text_lines.specs.Puts.{Puts, Begins};
ghost use Rattle.text_events.specs.Told.{Reads, in_column, column_of, value_of, values_text, event_text, Explains, meaning_front, field_front};
ghost use Rattle.text_lists.specs.Lists.{width_of};

use crate::named::write_case;
use text_lines::Output;
use text_lists::{Event, Field, List, Sign, UNKNOWN_EVENT};

// An event of the list, and the words of its fields.
#[derive(Clone, Copy)]
pub struct Told<'a> {
    event: Event,
    words: &'a [u64],
}

impl<'a> Told<'a> {
    // The event at the front of a place's words.
    pub fn new(words: &'a [u64]) -> Told<'a>
        ensures { Reads words.now result }
    {
        match words {
            [number, words @ ..] => Told {
                event: Event::get(*number).copied().unwrap_or(UNKNOWN_EVENT),
                words,
            },
            [] => Told {
                event: UNKNOWN_EVENT,
                words,
            },
        }
    }

    // The event in the replay format: `= e `, its name and its fields.
    pub fn write(self, out: &mut Output<'_, '_, impl Print>)
        ensures { Puts (event_text self.entry) out.old out.new }
    {
        out.bytes(b"= e ");
        out.bytes(self.event.entry.name);
        self.write_values(out);
        out.bytes(b"\n");
    }

    // The event in the columns of `runs`: its name, its tag or 0, its evidence or 0; and where it is to
    // be explained, its words and its fields.
    pub fn write_explained(self, out: &mut Output<'_, '_, impl Print>, explain: bool)
        ensures { Explains self.entry explain out.old out.new }
    {
        out.bytes(self.event.entry.name);
        out.spaced(self.value_in(Column::Tag));
        out.spaced(self.value_in(Column::Evidence));
        if explain {
            self.write_meaning(out);
        }
    }

    // The value of the first field of a column, 0 where there is none. Three functions go over the fields with their words: an
    // iterator of both would need a law of its own for each of their loops.
    fn value_in(self, column: Column) -> u64
        ensures { result ≡ column_of column self.entry.event.fields.now self.entry.words.now }
    {
        let mut words = self.words;
        for field in self.event.fields {
            if column.has(field.sign) {
                return value(field.sign, words).unwrap_or(0);
            }
            words = behind(field.sign, words);
        }
        0
    }

    // The values of the fields, ` -` for one that is absent.
    fn write_values(self, out: &mut Output<'_, '_, impl Print>)
        ensures { Puts (values_text self.entry.event.fields.now self.entry.words.now) out.old out.new }
    {
        let mut words = self.words;
        for field in self.event.fields {
            out.spaced_or(value(field.sign, words), b" -");
            words = behind(field.sign, words);
        }
    }

    // ` # `, the event's words, and its fields behind a `:` where it has any.
    fn write_meaning(self, out: &mut Output<'_, '_, impl Print>)
        ensures { Begins (meaning_front self.entry) out.old out.new }
    {
        out.bytes(b" # ");
        out.bytes(self.event.entry.words);
        if !self.event.fields.is_empty() {
            out.bytes(b":");
        }
        self.write_fields(out);
    }

    // The names of the fields and their values in words.
    fn write_fields(self, out: &mut Output<'_, '_, impl Print>)
        ensures { Begins [] out.old out.new }
    {
        let mut words = self.words;
        for field in self.event.fields {
            write_field(out, *field, value(field.sign, words));
            words = behind(field.sign, words);
        }
    }
}

// The columns behind the name.
#[derive(Clone, Copy)]
enum Column {
    Tag,
    Evidence,
}

impl Column {
    fn has(self, sign: Sign) -> bool
        ensures { result ≡ in_column self sign }
    {
        match self {
            Column::Tag => matches!(sign, Sign::Tag | Sign::MayTag),
            Column::Evidence => matches!(sign, Sign::Case(List::Evidence)),
        }
    }
}

// What a field tells whose words stand first among `words`: nothing where it is absent.
fn value(sign: Sign, words: &[u64]) -> Option<u64>
    ensures { result ≡ value_of sign words.now }
{
    match sign {
        Sign::Zero => Some(0),
        Sign::MayNumber | Sign::MayTag => match words {
            [1, n, ..] => Some(*n),
            _ => None,
        },
        _ => words.first().copied(),
    }
}

// The words behind those of the field.
fn behind(sign: Sign, words: &[u64]) -> &[u64]
    ensures { result.now ≡ drop (width_of sign) words.now }
{
    words.get(sign.width()..).unwrap_or(&[])
}

// A field's name and its value in words. What is always 0 tells nothing.
fn write_field(out: &mut Output<'_, '_, impl Print>, field: Field, value: Option<u64>)
    ensures { Begins (field_front field value) out.old out.new }
{
    if field.sign == Sign::Zero {
        return;
    }
    out.bytes(b" ");
    out.bytes(field.name);
    match (field.sign, value) {
        (Sign::Case(list), Some(n)) => write_case(out, list, n),
        _ => out.spaced_or(value, b" none"),
    }
}
