// Fields by name: each name stands before its value, in any order and none of them twice.
ghost use Rattle.std.specs.Prelude.{◌≡◌, Ok, Err, true, not, cond};
ghost use Rattle.std.specs.Result.{is_ok};
ghost use Rattle.text.specs.Scans.{end_at};
ghost use Rattle.text.specs.declared.fault.Fault.TheVariants.{NotWord, Extra};

use crate::reader::{Fields, Reader, Slot};
use text::{Fault, Scan};

// No line has more names.
pub const NAMES: usize = 32;

// A line whose fields have names. For each field the record is gone through once, from its first.
#[derive(Clone, Copy)]
pub struct Named<'a> {
    pub reader: Reader<'a>,
    // Which of the names stood before, by their numbers from 0.
    pub seen: [bool; NAMES],
    // The number of the next field of the record, and whether one was named.
    next: usize,
    found: bool,
}

impl<'a> Named<'a> {
    pub fn new(scan: Scan<'a>) -> Named<'a>
        ensures scan { result.reader.scan ≡ scan.entry }
        ensures named { result.reader.named ≡ true }
    {
        Named {
            reader: Reader::by_name(scan),
            seen: [false; NAMES],
            next: 0,
            found: false,
        }
    }

    // Begins the record anew, unless the line is at its end.
    pub fn begin(&mut self) -> bool
        ensures ends { result ≡ not (is_ok (end_at self.old.reader.scan.line.now self.old.reader.scan.at)) }
        ensures reader { self.new.reader ≡ self.old.reader }
    {
        self.next = 0;
        self.found = false;
        !ended(&self.reader.scan)
    }

    // Whether the next field of the line is this name of the record's next field. The same name twice is
    // a fault.
    pub(crate) fn names(&mut self, name: &'static [u8]) -> Result<bool, Fault>
        ensures { self.new.reader.scan.line ≡ self.old.reader.scan.line }
    {
        let before = self.reader.scan;
        if self.found || !self.reader.scan.accept(name) {
            return Ok(false);
        }
        self.found = true;
        if self.again() {
            self.reader.scan = before;
            return Err(Fault::Twice);
        }
        Ok(true)
    }

    // Whether the record's next field was named before; from now on it was.
    fn again(&mut self) -> bool
        ensures { self.new.reader ≡ self.old.reader }
    {
        let Some(seen) = self.seen.get_mut(self.next) else {
            return false;
        };
        std::mem::replace(seen, true)
    }

    // Goes on to the record's next field.
    pub(crate) fn step(&mut self)
        ensures { self.new.reader ≡ self.old.reader }
    {
        self.next = self.next.saturating_add(1);
    }

    // What is wrong where no field was named: a line without names has a field too many.
    pub fn end(&self, names: bool) -> Result<(), Fault>
        ensures { result ≡ cond self.now.found (Ok tt) (Err (cond names NotWord Extra)) }
    {
        if self.found {
            Ok(())
        } else if names {
            Err(Fault::NotWord)
        } else {
            Err(Fault::Extra)
        }
    }
}

// Whether no field is left.
pub fn ended(scan: &Scan<'_>) -> bool
    ensures { result ≡ is_ok (end_at scan.now.line.now scan.now.at) }
{
    scan.end().is_ok()
}

impl Fields for Named<'_> {
    ghost line = { λ n. n.reader.scan.line.now };

    fn field(&mut self, name: &'static [u8], slot: Slot<'_>) -> Result<(), Fault> {
        if self.names(name)? {
            self.reader.read(slot)?;
        }
        self.step();
        Ok(())
    }
}
