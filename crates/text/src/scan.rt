// A line read field by field.
ghost use Rattle.std.specs.Prelude.{◌≡◌, map, IfOk, IfErr};
ghost use Rattle.std.specs.Option.{is_some};
ghost use Rattle.std.specs.Result.{result_ok};
ghost use Rattle.text.specs.Fields.{Within, field_at, bytes_at};
ghost use Rattle.text.specs.declared.fault.Fault.TheVariants.{Missing};
ghost use Rattle.text.specs.Scans.{number_at, signed_at, optional_at, accept_at, word_at, entry_at, end_at, place_after, place_where, place_of, entry_of};

use crate::fault::Fault;
use crate::field::{Field, next_field};
use crate::number::parse;
use crate::signed::parse_signed;

// The line, and where the next field starts. After a fault that is the start of the field at fault.
#[derive(Clone, Copy)]
pub struct Scan<'a> {
    pub line: &'a [u8],
    pub at: usize,
}

// `number`, `signed`, `word` and `entry` differ in what reads the field; one function for them would take
// that as a closure with clauses of its own, which is longer than the two lines that they share.
impl<'a> Scan<'a> {
    pub fn new(line: &'a [u8]) -> Scan<'a>
        ensures line { result.line ≡ line.entry }
        ensures at { result.at ≡ 0 }
    {
        Scan { line, at: 0 }
    }

    // The next field. Fields are separated by single spaces, so a field may be empty, and a line that ends
    // with a space has an empty field at its end.
    pub fn field(&self) -> Result<Field, Fault>
        ensures value { result_ok result ≡ field_at self.now.line.now self.now.at }
        ensures missing { IfErr result (λ fault. fault ≡ Missing) }
        ensures within { IfOk result (Within self.now.line.now self.now.at) }
    {
        next_field(self.line, self.at).ok_or(Fault::Missing)
    }

    // The bytes of the next field; none where there is no such field.
    pub fn bytes(&self) -> &'a [u8]
        ensures { result.now ≡ bytes_at self.now.line.now self.now.at }
    {
        match self.field() {
            Ok(field) => &self.line[field.start..field.end],
            Err(_) => &[],
        }
    }

    // Reads a number from 0 to `most`.
    pub fn number(&mut self, most: u64) -> Result<u64, Fault>
        ensures value { result ≡ number_at self.old.line.now self.old.at most }
        ensures line { self.new.line ≡ self.old.line }
        ensures at { self.new.at ≡ place_after self.old.line.now self.old.at result }
    {
        let field = self.field()?;
        let n = parse(&self.line[field.start..field.end], most)?;
        self.at = field.next;
        Ok(n)
    }

    // Reads a number from -2^31 to 2^31 - 1.
    pub fn signed(&mut self) -> Result<i32, Fault>
        ensures value { result ≡ signed_at self.old.line.now self.old.at }
        ensures line { self.new.line ≡ self.old.line }
        ensures at { self.new.at ≡ place_after self.old.line.now self.old.at result }
    {
        let field = self.field()?;
        let n = parse_signed(&self.line[field.start..field.end])?;
        self.at = field.next;
        Ok(n)
    }

    // Reads a number, or `-` for none.
    pub fn optional(&mut self) -> Result<Option<u64>, Fault>
        ensures value { result ≡ optional_at self.old.line.now self.old.at }
        ensures line { self.new.line ≡ self.old.line }
        ensures at { self.new.at ≡ place_after self.old.line.now self.old.at result }
    {
        if self.accept(b"-") {
            return Ok(None);
        }
        let n = self.number(u64::MAX)?;
        Ok(Some(n))
    }

    // Moves past the next field where that is `word`, and else stays.
    pub fn accept(&mut self, word: &[u8]) -> bool
        ensures value { result ≡ accept_at self.old.line.now self.old.at word.now }
        ensures line { self.new.line ≡ self.old.line }
        ensures at { self.new.at ≡ place_where self.old.line.now self.old.at result }
    {
        let Ok(field) = self.field() else {
            return false;
        };
        let found = &self.line[field.start..field.end] == word;
        if found {
            self.at = field.next;
        }
        found
    }

    // Reads one of `words`, and answers its place among them.
    pub fn word(&mut self, words: &[&[u8]]) -> Result<usize, Fault>
        ensures value { result ≡ word_at self.old.line.now self.old.at (map (λ w. w.now) words.now) }
        ensures line { self.new.line ≡ self.old.line }
        ensures at { self.new.at ≡ place_after self.old.line.now self.old.at result }
    {
        let field = self.field()?;
        let Some(place) = place_of(words, &self.line[field.start..field.end]) else {
            return Err(Fault::NotWord);
        };
        self.at = field.next;
        Ok(place)
    }

    // The value of the row of `table` whose word the next field is, with the scan moved past it; where
    // there is none the scan stays.
    pub fn entry<T: Copy>(&mut self, table: &[(&'static [u8], T)]) -> Option<T>
        ensures value { result ≡ entry_at self.old.line.now self.old.at (map (λ row. (row.0.now, row.1)) table.now) }
        ensures line { self.new.line ≡ self.old.line }
        ensures at { self.new.at ≡ place_where self.old.line.now self.old.at (is_some result) }
    {
        let field = self.field().ok()?;
        let value = entry_of(table, &self.line[field.start..field.end])?;
        self.at = field.next;
        Some(value)
    }

    // Whether no field is left.
    pub fn end(&self) -> Result<(), Fault>
        ensures { result ≡ end_at self.now.line.now self.now.at }
    {
        if self.at <= self.line.len() {
            return Err(Fault::Extra);
        }
        Ok(())
    }
}

// The place of `word` among `words`.
pub fn place_of(words: &[&[u8]], word: &[u8]) -> Option<usize>
    ensures { result ≡ place_of (map (λ w. w.now) words.now) word.now }
{
    words.iter().position(|w| *w == word)
}

// The value of the first row of `table` whose word is `word`.
fn entry_of<T: Copy>(table: &[(&'static [u8], T)], word: &[u8]) -> Option<T>
    ensures { result ≡ entry_of (map (λ row. (row.0.now, row.1)) table.now) word.now }
{
    table.iter().find(|row| row.0 == word).map(|row| row.1)
}
