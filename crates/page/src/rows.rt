// The rows that the lists want, one after another: those of every list by number, then the settings
// and the profile with their defaults.
ghost use Rattle.std.specs.Prelude.{[]};

use settings::Config;
use text::Fault;
use text_form::{Fields, Slot};
use text_lists::{Entry, Event, List, UNKNOWN};
use text_records::Record;

// No row begins with more.
const LONGEST: usize = 256;

// What has a table on the page.
#[derive(Clone, Copy)]
enum Table {
    Events,
    Of(List),
    Settings,
    Profile,
}

// The tables in their order.
static TABLES: [Table; 16] = [
    Table::Events,
    Table::Of(List::Messages),
    Table::Of(List::Slots),
    Table::Of(List::Purposes),
    Table::Of(List::Roles),
    Table::Of(List::Evidence),
    Table::Of(List::Reasons),
    Table::Of(List::Causes),
    Table::Of(List::Teardowns),
    Table::Of(List::Starts),
    Table::Of(List::Cycles),
    Table::Of(List::Waits),
    Table::Of(List::Refusals),
    Table::Of(List::Places),
    Table::Settings,
    Table::Profile,
];

// A row: the place of its table, and its number there.
#[derive(Clone, Copy)]
pub(crate) struct Row {
    table: usize,
    number: u64,
}

// What a row begins with.
#[derive(Clone, Copy)]
enum Head {
    // A number, a name and its words.
    Entry(u64, Entry),
    // A name and its default.
    Default(&'static [u8], u64),
}

// What a row wants that has no entry: the first one behind the last table.
const NO_ROW: Head = Head::Entry(0, UNKNOWN);

impl Row {
    pub(crate) const FIRST: Row = Row {
        table: 0,
        number: 0,
    };

    // The row behind this one: the next number, or the first of the next table. It is no iterator's `next`,
    // since a row is wanted until a line agrees with it.
    pub(crate) fn next(self) -> Row {
        let after = Row {
            table: self.table,
            number: self.number.saturating_add(1),
        };
        if after.head().is_some() {
            return after;
        }
        if self.is_done() {
            return self;
        }
        let table = self.table.saturating_add(1);
        let number = match TABLES.get(table) {
            Some(Table::Of(list)) => list.first(),
            _ => 0,
        };
        Row { table, number }
    }

    // Whether it stands behind the last table. No more is wanted then; a row of no entry is taken all the same,
    // and then those of the places.
    pub(crate) fn is_done(self) -> bool {
        TABLES.len() <= self.table
    }

    // What it begins with, if there is such a row.
    fn head(self) -> Option<Head> {
        let n = self.number;
        match TABLES.get(self.table).unwrap_or(&Table::Of(List::Places)) {
            Table::Events => Some(Head::Entry(n, Event::get(n)?.entry)),
            Table::Of(list) => Some(Head::Entry(n, *list.get(n)?)),
            Table::Settings => default_of(&mut Config::fmp(), n),
            Table::Profile => default_of(&mut text_records::plain_profile(), n),
        }
    }
}

// Finds a field by its place among those of a record: how many stand before it, and then its name and
// value.
#[derive(Clone, Copy)]
struct Finder {
    left: u64,
    found: Option<Head>,
}

impl Finder {
    fn new(left: u64) -> Finder {
        Finder { left, found: None }
    }
}

impl Fields for Finder {
    ghost line = { λ _. [] };

    fn field(&mut self, name: &'static [u8], slot: Slot<'_>) -> Result<(), Fault> {
        if self.left == 0 && self.found.is_none() {
            self.found = Some(Head::Default(name, value(slot)));
        }
        self.left = self.left.saturating_sub(1);
        Ok(())
    }
}

// The number in a slot; neither the settings nor the profile has another kind of slot than these. It is no
// `From`, since a slot of another kind has no number.
fn value(slot: Slot<'_>) -> u64 {
    match slot {
        Slot::Number(n) => *n,
        Slot::Byte(n, _) => u64::from(*n),
        Slot::Half(n) => u64::from(*n),
        Slot::Flag(on) => u64::from(*on),
        _ => 0,
    }
}

// The name and the default of field `n` of a record that has its defaults.
fn default_of(record: &mut impl Record, n: u64) -> Option<Head> {
    let mut finder = Finder::new(n);
    record.fields(&mut finder).ok()?;
    finder.found
}

impl Head {
    fn put(self, to: &mut Wanted) {
        match self {
            Head::Entry(number, entry) => to.entry(number, entry),
            Head::Default(name, value) => to.default(name, value),
        }
    }
}

// What a row begins with, as bytes: the first `len` of them, with zeros behind.
#[derive(Clone, Copy)]
pub(crate) struct Wanted {
    // Fixed memory: the longest fits.
    pub(crate) bytes: [u8; LONGEST],
    len: usize,
}

impl Wanted {
    // Of a row.
    pub(crate) fn new(row: Row) -> Wanted {
        let mut wanted = Wanted {
            bytes: [0; LONGEST],
            len: 0,
        };
        row.head().unwrap_or(NO_ROW).put(&mut wanted);
        wanted
    }

    // Whether a line begins so.
    pub(crate) fn begins(&self, line: &[u8]) -> bool {
        line.starts_with(&self.bytes[..self.len.min(LONGEST)])
    }

    // `| number | `name` | words | `
    fn entry(&mut self, number: u64, entry: Entry) {
        self.put(b"| ");
        self.number(number);
        self.put(b" | `");
        self.put(entry.name);
        self.put(b"` | ");
        self.put(entry.words);
        self.put(b" | ");
    }

    // `| `name` | default | `
    fn default(&mut self, name: &[u8], value: u64) {
        self.put(b"| `");
        self.put(name);
        self.put(b"` | ");
        self.number(value);
        self.put(b" | ");
    }

    fn put(&mut self, words: &[u8]) {
        self.len = text_lines::put(&mut self.bytes, self.len, words);
    }

    fn number(&mut self, n: u64) {
        self.len = text_lines::put_number(&mut self.bytes, self.len, n);
    }
}
