// The state. Of a record that is absent, and of a case in which the cycle is not, the fields have no
// meaning.
ghost use Rattle.std.specs.Prelude.{◌≡◌, ◌<◌, Ok, true};
ghost use Rattle.std.specs.Result.{OnOk};
ghost use Rattle.text.specs.Scans.{end_at};

use crate::Record;
use candidates::Candidates;
use cycle::{Attempt, Cycle, PendI, PendR};
use epoch::{Drain, Epoch, MayEpoch};
use numbers::cycle::Stage;
use state::{Memory, State};
use text::Fault;
use text_form::{Fields, Reader, Slot};
use time::When;

// What stands behind the word `state`: no fields of an absent record, only the case in which the cycle
// is, and the candidates that there is room for.
impl Record for State {
    fn fields<F: Fields>(&mut self, f: &mut F) -> Result<(), Fault> {
        f.field(b"mem", Slot::Word)?;
        self.mem.fields(f)?;
        f.field(b"cur", Slot::Word)?;
        self.cur.fields(f)?;
        f.field(b"drain", Slot::Word)?;
        drained_fields(&mut self.drain, f)?;
        f.field(b"cycle", Slot::Word)?;
        self.cycle.fields(f)?;
        f.field(b"cands", Slot::Word)?;
        self.cands.fields(f)
    }
}

impl Record for MayEpoch {
    fn fields<F: Fields>(&mut self, f: &mut F) -> Result<(), Fault> {
        f.field(b"", Slot::There(&mut self.some))?;
        if self.some {
            return self.ep.fields(f);
        }
        Ok(())
    }
}

// A drained epoch that may be absent.
fn drained_fields<F: Fields>(d: &mut Drain, f: &mut F) -> Result<(), Fault>
    ensures { F.line f.new ≡ F.line f.old }
{
    f.field(b"", Slot::There(&mut d.some))?;
    if d.some {
        return d.fields(f);
    }
    Ok(())
}

impl Record for Memory {
    fn fields<F: Fields>(&mut self, f: &mut F) -> Result<(), Fault> {
        f.field(b"peer_epoch", Slot::When(&mut self.peer_epoch))?;
        f.field(b"peer_k", Slot::Bit(&mut self.peer_k))?;
        f.field(b"jitter", Slot::Signed(&mut self.jitter))?;
        f.field(b"damp", Slot::When(&mut self.damp))?;
        f.field(b"backoff", Slot::When(&mut self.backoff))?;
        f.field(b"abandons", Slot::Byte(&mut self.abandons, u8::MAX))?;
        f.field(b"last_rx", Slot::When(&mut self.last_rx))?;
        f.field(b"rx_cur", Slot::When(&mut self.rx_cur))?;
        f.field(b"sent_data", Slot::Flag(&mut self.sent_data))?;
        f.field(b"silence", Slot::Byte(&mut self.silence, u8::MAX))?;
        f.field(b"link_since", Slot::Number(&mut self.link_since))?;
        f.field(b"last_cutover", Slot::When(&mut self.last_cutover))?;
        f.field(b"hs_rtt", Slot::When(&mut self.hs_rtt))?;
        f.field(b"srtt", Slot::When(&mut self.srtt))?;
        f.field(b"setup_rto", Slot::When(&mut self.setup_rto))?;
        f.field(b"reachable", Slot::Flag(&mut self.reachable))?;
        f.field(b"due", Slot::Flag(&mut self.due))
    }
}

impl Record for Epoch {
    fn fields<F: Fields>(&mut self, f: &mut F) -> Result<(), Fault> {
        f.field(b"tag", Slot::Number(&mut self.tag))?;
        f.field(b"session", Slot::Number(&mut self.session))?;
        f.field(b"sent", Slot::Number(&mut self.sent))?;
        f.field(b"lease", Slot::Index(&mut self.ids.lease))?;
        f.field(b"theirs", Slot::Index(&mut self.ids.theirs))?;
        f.field(b"transport", Slot::Number(&mut self.ids.transport))?;
        f.field(b"k", Slot::Flag(&mut self.k))?;
        f.field(b"role", Slot::Flag(&mut self.responder))?;
        f.field(b"base", Slot::When(&mut self.base))?;
        f.field(b"started", Slot::Number(&mut self.started))?;
        f.field(b"route", Slot::When(&mut self.route))?;
        f.field(b"ext", Slot::Number(&mut self.ext))?;
        f.field(b"recv", Slot::Flag(&mut self.delegated))?;
        f.field(b"floor", Slot::When(&mut self.floor))?;
        f.field(b"heard", Slot::When(&mut self.heard))?;
        f.field(b"moved", Slot::When(&mut self.moved))?;
        f.field(b"assumed", Slot::Flag(&mut self.assumed))?;
        f.field(b"fin", Slot::Final(&mut self.fin))?;
        f.field(b"elicit", Slot::MayLadder(&mut self.elicit))?;
        f.field(b"prompted", Slot::When(&mut self.prompted))
    }
}

impl Record for Drain {
    fn fields<F: Fields>(&mut self, f: &mut F) -> Result<(), Fault> {
        self.ep.fields(f)?;
        f.field(b"deadline", Slot::Number(&mut self.deadline))?;
        f.field(b"evidenced", Slot::Flag(&mut self.evidenced))
    }
}

impl Record for Cycle {
    fn fields<F: Fields>(&mut self, f: &mut F) -> Result<(), Fault> {
        f.field(b"", Slot::Cycle(&mut self.kind))?;
        match self.stage() {
            Stage::Idle => Ok(()),
            Stage::Init => self.init.fields(f),
            Stage::PendI => self.pendi.fields(f),
            Stage::PendR => self.pendr.fields(f),
        }
    }
}

impl Record for Attempt {
    fn fields<F: Fields>(&mut self, f: &mut F) -> Result<(), Fault> {
        f.field(b"hs", Slot::Number(&mut self.hs))?;
        f.field(b"out", Slot::Number(&mut self.out))?;
        f.field(b"lease", Slot::Index(&mut self.lease))?;
        f.field(b"transport", Slot::Number(&mut self.transport))?;
        f.field(b"first", Slot::Number(&mut self.first))?;
        f.field(b"ladder", Slot::Ladder(&mut self.ladder))?;
        f.field(b"deadline", Slot::Number(&mut self.deadline))?;
        f.field(b"resent", Slot::Flag(&mut self.resent))
    }
}

impl Record for PendI {
    fn fields<F: Fields>(&mut self, f: &mut F) -> Result<(), Fault> {
        self.ep.fields(f)?;
        f.field(b"wait", Slot::Byte(&mut self.wait, 2))?;
        f.field(b"deadline", Slot::Number(&mut self.deadline))?;
        f.field(b"restart", Slot::Flag(&mut self.restart))?;
        f.field(b"final", Slot::Final(&mut self.fin))?;
        f.field(b"probes", Slot::MayLadder(&mut self.probes))?;
        f.field(b"probed", Slot::When(&mut self.probed))?;
        f.field(b"stayed", Slot::Flag(&mut self.stayed))?;
        f.field(b"reverted", Slot::Flag(&mut self.reverted))
    }
}

impl Record for PendR {
    fn fields<F: Fields>(&mut self, f: &mut F) -> Result<(), Fault> {
        self.ep.fields(f)?;
        f.field(b"deadline", Slot::Number(&mut self.deadline))?;
        f.field(b"restart", Slot::Flag(&mut self.restart))?;
        f.field(b"answer", Slot::When(&mut self.answer))
    }
}

impl Record for Candidates {
    fn fields<F: Fields>(&mut self, f: &mut F) -> Result<(), Fault> {
        f.field(b"next", Slot::Number(&mut self.next))?;
        f.field(b"count", Slot::Count(&mut self.len))?;
        for i in 0..self.len.min(32) {
            candidate_fields(self, i, f)?;
        }
        Ok(())
    }
}

// Candidate `i`, which stands in one array a field; past the 32nd there is none.
pub(crate) fn candidate_fields<F: Fields>(
    c: &mut Candidates,
    i: usize,
    f: &mut F,
) -> Result<(), Fault>
    ensures { F.line f.new ≡ F.line f.old }
{
    if 32 <= i {
        return Ok(());
    }
    f.field(b"hs", Slot::Number(&mut c.hs[i]))?;
    f.field(b"msg1", Slot::Number(&mut c.msg1[i]))?;
    f.field(b"ack", Slot::Number(&mut c.ack[i]))?;
    f.field(b"carrier", Slot::Number(&mut c.carrier[i]))?;
    f.field(b"route", Slot::Number(&mut c.route[i]))?;
    f.field(b"born", Slot::Number(&mut c.born[i]))?;
    f.field(b"deadline", Slot::Number(&mut c.deadline[i]))?;
    let mut bound = When {
        some: c.bounded[i] == 1,
        at: c.bound[i],
    };
    f.field(b"bound", Slot::When(&mut bound))?;
    c.bounded[i] = bound.some as u64;
    c.bound[i] = bound.at;
    f.field(b"seq", Slot::Number(&mut c.seq[i]))
}

// Reads what stands behind the word `state`, to the end of the line. The candidates past the 32nd are
// read and not kept.
pub fn read_state(reader: &mut Reader<'_>, s: &mut State) -> Result<(), Fault>
    ensures line { reader.new.scan.line.now ≡ reader.old.scan.line.now }
    ensures end { OnOk result (end_at reader.new.scan.line.now reader.new.scan.at ≡ Ok tt) }
    ensures cut { OnOk result (32 < s.new.cands.len → reader.new.cut ≡ true) }
{
    s.fields(reader)?;
    if 32 < s.cands.len {
        read_past(reader, s.cands)?;
        reader.cut = true;
    }
    reader.scan.end()
}

fn read_past(reader: &mut Reader<'_>, cands: Candidates) -> Result<(), Fault>
    ensures { reader.new.scan.line.now ≡ reader.old.scan.line.now }
{
    let mut past = cands;
    for _ in 32..cands.len {
        candidate_fields(&mut past, 0, reader)?;
    }
    Ok(())
}
