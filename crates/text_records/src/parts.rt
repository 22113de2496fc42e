// The lines whose fields have names.
ghost use Rattle.std.specs.Prelude.{◌≡◌, false};
ghost use Rattle.text_records.specs.Parts.{name_of, is_memory, is_current, is_drained, is_cycle, is_candidate};

use crate::blank::{blank_state, plain_profile};
use crate::fields::candidate_fields;
use crate::record::{Record, name_record};
use candidates::Candidates;
use settings::Config;
use state::State;
use text::Fault;
use text_form::{Fields, Named, Names};

#[derive(Clone, Copy, PartialEq, Eq)]
pub enum Part {
    Settings,
    Profile,
    Memory,
    Current,
    Drained,
    PendI,
    PendR,
    Candidate,
}

impl Part {
    // The first word of the line.
    pub fn name(self) -> &'static [u8]
        ensures { result.now ≡ name_of self }
    {
        match self {
            Part::Settings => b"set",
            Part::Profile => b"profile",
            Part::Memory => b"memory",
            Part::Current => b"current",
            Part::Drained => b"drained",
            Part::PendI => b"pendi",
            Part::PendR => b"pendr",
            Part::Candidate => b"candidate",
        }
    }

    // What the line can name: the names that the record's list hands over. The trait says nothing of which
    // they are, so there is no promise but that of `Names`.
    pub fn names(self) -> Names {
        let mut names = Names::new();
        let mut cfg = Config::fmp();
        let mut profile = plain_profile();
        let mut s = blank_state();
        s.cands.len = 1;
        let _ = match self {
            Part::Settings => cfg.fields(&mut names),
            Part::Profile => profile.fields(&mut names),
            Part::Memory => s.mem.fields(&mut names),
            Part::Current => s.cur.ep.fields(&mut names),
            Part::Drained => s.drain.fields(&mut names),
            Part::PendI => s.cycle.pendi.fields(&mut names),
            Part::PendR => s.cycle.pendr.fields(&mut names),
            Part::Candidate => candidate_fields(&mut s.cands, 0, &mut names),
        };
        names
    }
}

// The last of the candidates that are held.
#[derive(Clone, Copy)]
struct Last(Candidates);

impl Record for Last {
    fn fields<F: Fields>(&mut self, f: &mut F) -> Result<(), Fault> {
        let i = self.0.len.wrapping_sub(1);
        candidate_fields(&mut self.0, i, f)
    }
}

// Changes the fields of a part of the state that a line names; a candidate is the last that is held.
// The settings and the profile are no parts of a state.
pub fn name_part(named: &mut Named<'_>, part: Part, s: &mut State) -> Result<(), Fault>
    ensures line { named.new.reader.scan.line.now ≡ named.old.reader.scan.line.now }
    ensures memory { is_memory part ≡ false → s.new.mem ≡ s.old.mem }
    ensures current { is_current part ≡ false → s.new.cur ≡ s.old.cur }
    ensures current_there { s.new.cur.some ≡ s.old.cur.some }
    ensures drained { is_drained part ≡ false → s.new.drain ≡ s.old.drain }
    ensures cycle { is_cycle part ≡ false → s.new.cycle ≡ s.old.cycle }
    ensures kind { s.new.cycle.kind ≡ s.old.cycle.kind }
    ensures candidates { is_candidate part ≡ false → s.new.cands ≡ s.old.cands }
{
    match part {
        Part::Settings | Part::Profile => Ok(()),
        Part::Memory => name_record(named, &mut s.mem),
        Part::Current => name_record(named, &mut s.cur.ep),
        Part::Drained => name_record(named, &mut s.drain),
        Part::PendI => name_record(named, &mut s.cycle.pendi),
        Part::PendR => name_record(named, &mut s.cycle.pendr),
        Part::Candidate => {
            let mut last = Last(s.cands);
            name_record(named, &mut last)?;
            s.cands = last.0;
            Ok(())
        }
    }
}
