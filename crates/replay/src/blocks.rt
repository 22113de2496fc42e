// The block that is read.
use replay_answers::Kind;
use settings::Config;
use state::{Profile, State};
use text_calls::Link;
use text_lines::Output;
use text_words::Call;

// Its kind, and what its lines have given so far; none stands before the first.
#[derive(Drop)]
pub(crate) struct Block<'a> {
    pub(crate) kind: Kind,
    pub(crate) cfg: Option<Config>,
    pub(crate) profile: Option<Profile>,
    pub(crate) state: Option<State>,
    // The line of a state that claims more than a state holds stands at the front of `kept`, and this is
    // its length: every call but `open` leaves such a state.
    claim: Option<usize>,
    // Fixed memory: the longest line fits.
    kept: &'a mut [u8],
}

// What a call needs and no line has given: settings and a profile, or a state.
#[derive(Clone, Copy)]
pub(crate) enum Early {
    Given,
    State,
}

impl<'a> Block<'a> {
    pub(crate) fn new(kept: &'a mut [u8]) -> Block<'a> {
        Block {
            kind: Kind::Vector,
            cfg: None,
            profile: None,
            state: None,
            claim: None,
            kept,
        }
    }

    // The next block.
    pub(crate) fn begin(&mut self, kind: Kind) {
        self.kind = kind;
        self.cfg = None;
        self.profile = None;
        self.state = None;
        self.claim = None;
    }

    // The end of a block: a run's end state.
    pub(crate) fn close(&self, out: &mut Output<'_, '_, impl Print>) {
        let Some(state) = &self.state else {
            return;
        };
        if self.kind == Kind::Vector {
            return;
        }
        match self.claim {
            None => replay_answers::write_state(out, state),
            Some(n) => write_claim(out, &*self.kept, n),
        }
    }

    // A state line that was read; one that claims too much is kept.
    pub(crate) fn give(&mut self, state: State, line: &[u8], claims: bool) {
        self.state = Some(state);
        self.claim = None;
        if claims {
            let n = text_lines::put(&mut *self.kept, 0, line);
            self.claim = Some(n);
        }
    }

    // The link for a call: every call needs settings and a profile, and each but `open` a state.
    pub(crate) fn link(&self, call: Call) -> Result<Link, Early> {
        let cfg = self.cfg.ok_or(Early::Given)?;
        let profile = self.profile.ok_or(Early::Given)?;
        let state = match self.state {
            Some(state) => state,
            None if call == Call::Open => text_records::blank_state(),
            None => return Err(Early::State),
        };
        Ok(Link {
            state,
            cfg,
            profile,
        })
    }

    // The block after a call that left a state: a run goes on with it.
    pub(crate) fn settle(&mut self, call: Call, left: State) {
        if self.kind == Kind::Vector {
            return;
        }
        self.state = Some(left);
        if call == Call::Open {
            self.claim = None;
        }
    }
}

fn write_claim(out: &mut Output<'_, '_, impl Print>, kept: &[u8], n: usize) {
    out.bytes(b"= ");
    out.bytes(&kept[..n.min(kept.len())]);
    out.bytes(b"\n");
}
