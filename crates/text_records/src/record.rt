// Records that have a list of their fields.
ghost use Rattle.std.specs.Prelude.{◌≡◌, Ok};
ghost use Rattle.std.specs.Result.{OnOk};
ghost use Rattle.text.specs.Scans.{end_at};

use text::Fault;
use text_form::{Fields, NAMES, Named, Reader};

pub trait Record {
    // Does what `f` does with each field, in the order of the replay format.
    fn fields<F: Fields>(&mut self, f: &mut F) -> Result<(), Fault>
        ensures { F.line f.new ≡ F.line f.old };
}

// Reads a record by place, to the end of the line.
pub fn read_record<R: Record>(reader: &mut Reader<'_>, r: &mut R) -> Result<(), Fault>
    ensures line { reader.new.scan.line.now ≡ reader.old.scan.line.now }
    ensures end { OnOk result (end_at reader.new.scan.line.now reader.new.scan.at ≡ Ok tt) }
{
    r.fields(reader)?;
    reader.scan.end()
}

// Changes the fields that a line names, to its end. No field is named twice, so there are fewer than
// NAMES.
pub fn name_record<R: Record>(named: &mut Named<'_>, r: &mut R) -> Result<(), Fault>
    ensures line { named.new.reader.scan.line.now ≡ named.old.reader.scan.line.now }
    ensures end { OnOk result (end_at named.new.reader.scan.line.now named.new.reader.scan.at ≡ Ok tt) }
{
    for _ in 0..NAMES {
        if !named.begin() {
            return Ok(());
        }
        r.fields(named)?;
        named.end(true)?;
    }
    named.reader.scan.end()
}
