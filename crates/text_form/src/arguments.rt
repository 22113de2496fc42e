// The arguments of a call in a row of numbers: a number that may be absent takes two places, 0 and 0
// where it is absent, else 1 and the number; a number with a sign is 2^31 above itself. Call and row stand one by one: of a
// struct of both the clauses would name the fields in place of the arguments.
ghost use Rattle.std.specs.Prelude.{◌≡◌, Ok, drop, length};
ghost use Rattle.std.specs.Result.{OnOk};
ghost use Rattle.text.specs.Scans.{end_at};
ghost use Rattle.text_words.specs.Places.{width_of};
ghost use Rattle.text_words.specs.Words.{places_of};
ghost use Rattle.text_form.specs.Rows.{Moves};

use crate::named::{NAMES, Named, ended};
use crate::reader::Reader;
use text::Fault;
use text_words::{Argument, Call, Default, Kind};

// 0 as a number with a sign.
const ZERO: u64 = 2147483648;

// A row that is filled from its front, and its next place.
#[derive(Drop)]
struct Row<'r> {
    numbers: &'r mut [u64],
    at: usize,
}

impl<'r> Row<'r> {
    fn new(numbers: &'r mut [u64]) -> Row<'r>
        ensures at { result.at ≡ 0 }
        ensures numbers { result.numbers.now ≡ numbers.old }
        ensures same_reference { result.numbers.ghost_name ≡ numbers.entry.ghost_name }
    {
        Row { numbers, at: 0 }
    }

    // Past the end nothing is stored. By `get_mut` there is no proof: what the row holds after the loan is
    // not stated.
    fn put(&mut self, n: u64)
        ensures { Moves 1 self.old self.new }
    {
        if self.at < self.numbers.len() {
            self.numbers[self.at] = n;
        }
        self.at = self.at.saturating_add(1);
    }

    // The places of a value stay as they are.
    fn skip(&mut self, kind: Kind)
        ensures { Moves (width_of kind) self.old self.new }
    {
        self.at = self.at.saturating_add(kind.width());
    }

    // The default of an argument, where `tag` is the current epoch's. A number that may be absent is.
    fn put_default(&mut self, a: &Argument, tag: u64)
        ensures { Moves (width_of a.now.kind) self.old self.new }
    {
        match (a.kind, a.default) {
            (Kind::Optional(_), _) => self.skip(a.kind),
            (_, Default::Tag) => self.put(tag),
            (Kind::Signed, Default::Value(_)) => self.put(ZERO),
            (_, Default::Value(n)) => self.put(n),
            _ => self.skip(a.kind),
        }
    }

    // Reads one value. A word that is its own value is no field of its own.
    fn read(&mut self, reader: &mut Reader<'_>, kind: Kind) -> Result<(), Fault>
        ensures row { Moves (width_of kind) self.old self.new }
        ensures line { reader.new.scan.line ≡ reader.old.scan.line }
    {
        match kind {
            Kind::Number(most) | Kind::Buffer(most) => self.put(reader.number(most)?),
            Kind::Signed => self.put(ZERO.saturating_add_signed(i64::from(reader.signed()?))),
            Kind::Optional(most) => {
                let n = reader.optional(most)?;
                self.put(u64::from(n.is_some()));
                self.put(n.unwrap_or(0));
            }
            Kind::Choice(_) => self.skip(kind),
        }
        Ok(())
    }

    // Reads an argument by place. A buffer is read by whoever has a place for it.
    fn read_placed(&mut self, reader: &mut Reader<'_>, a: &Argument) -> Result<(), Fault>
        ensures row { Moves (width_of a.now.kind) self.old self.new }
        ensures line { reader.new.scan.line ≡ reader.old.scan.line }
    {
        match (a.default, a.kind) {
            (Default::Kept, _) | (_, Kind::Buffer(_)) => {
                self.skip(a.kind);
                Ok(())
            }
            (_, Kind::Choice(_)) => self.read(reader, Kind::Number(1)),
            _ => self.read(reader, a.kind),
        }
    }

    // Reads an argument that stands before those with names; one that may be left out only where
    // another field is left.
    fn read_leading(&mut self, reader: &mut Reader<'_>, a: &Argument) -> Result<(), Fault>
        ensures row { Moves (width_of a.now.kind) self.old self.new }
        ensures line { reader.new.scan.line ≡ reader.old.scan.line }
    {
        let left_out = a.default == Default::Kept && ended(&reader.scan);
        if a.by_place() && !left_out {
            return self.read(reader, a.kind);
        }
        self.skip(a.kind);
        Ok(())
    }

    // Reads the value of an argument where the next field names it.
    fn read_named(&mut self, named: &mut Named<'_>, a: &Argument) -> Result<(), Fault>
        ensures row { Moves (width_of a.now.kind) self.old self.new }
        ensures line { named.new.reader.scan.line ≡ named.old.reader.scan.line }
    {
        if let Kind::Choice(words) = a.kind {
            if named.names(words.one)? {
                self.put(1);
            } else if named.names(words.zero)? {
                self.put(0);
            } else {
                self.skip(a.kind);
            }
        } else if named.names(a.name)? {
            self.read(&mut named.reader, a.kind)?;
        } else {
            self.skip(a.kind);
        }
        Ok(())
    }
}

// Puts the defaults of a call's arguments, where `tag` is the current epoch's.
pub fn prepare(call: Call, tag: u64, row: &mut [u64])
    ensures behind { drop (places_of call) row.new ≡ drop (places_of call) row.old }
    ensures size { length row.new ≡ length row.old }
{
    let mut places = Row::new(row);
    for a in call.arguments() {
        places.put_default(a, tag);
    }
}

// Reads the arguments of a call by place, up to its buffers.
pub fn read_arguments(reader: &mut Reader<'_>, call: Call, row: &mut [u64]) -> Result<(), Fault>
    ensures behind { drop (places_of call) row.new ≡ drop (places_of call) row.old }
    ensures size { length row.new ≡ length row.old }
    ensures line { reader.new.scan.line ≡ reader.old.scan.line }
{
    let mut places = Row::new(row);
    for a in call.arguments() {
        places.read_placed(reader, a)?;
    }
    Ok(())
}

// Reads what stands behind the name of a call, to the end of the line: the arguments by place, then those
// by name. No argument is named twice, so there are fewer than NAMES.
pub fn read_call(named: &mut Named<'_>, call: Call, row: &mut [u64]) -> Result<(), Fault>
    ensures behind { drop (places_of call) row.new ≡ drop (places_of call) row.old }
    ensures size { length row.new ≡ length row.old }
    ensures line { named.new.reader.scan.line ≡ named.old.reader.scan.line }
    ensures end { OnOk result (end_at named.new.reader.scan.line.now named.new.reader.scan.at ≡ Ok tt) }
{
    read_leading(&mut named.reader, call, row)?;
    for _ in 0..NAMES {
        if !named.begin() {
            return Ok(());
        }
        read_pair(named, call, row)?;
    }
    named.reader.scan.end()
}

// Apart from `read_arguments`, which reads each argument by another method: one function would take that as a closure, with
// clauses of its own.
fn read_leading(reader: &mut Reader<'_>, call: Call, row: &mut [u64]) -> Result<(), Fault>
    ensures behind { drop (places_of call) row.new ≡ drop (places_of call) row.old }
    ensures size { length row.new ≡ length row.old }
    ensures line { reader.new.scan.line ≡ reader.old.scan.line }
{
    let mut places = Row::new(row);
    for a in call.arguments() {
        places.read_leading(reader, a)?;
    }
    Ok(())
}

fn read_pair(named: &mut Named<'_>, call: Call, row: &mut [u64]) -> Result<(), Fault>
    ensures behind { drop (places_of call) row.new ≡ drop (places_of call) row.old }
    ensures size { length row.new ≡ length row.old }
    ensures line { named.new.reader.scan.line ≡ named.old.reader.scan.line }
{
    let mut places = Row::new(row);
    let mut names = false;
    for a in call.arguments() {
        if a.by_place() {
            places.skip(a.kind);
        } else {
            names = true;
            places.read_named(named, a)?;
        }
        named.step();
    }
    named.end(names)
}
