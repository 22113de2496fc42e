// What the program holds from line to line.
use numbers::slot::Slot;
use runs_telling::Head;
use settings::Config;
use state::{Profile, State};
use text_calls::Link;
use text_words::Call;

// The settings and the profile; the state of the link, once one is there; how many calls there were, and
// the instant of the last; the latest instant since the link was opened or given; and whether lines are
// explained.
#[derive(Clone, Copy)]
pub(crate) struct Session {
    pub(crate) cfg: Config,
    pub(crate) profile: Profile,
    pub(crate) state: Option<State>,
    pub(crate) calls: u64,
    pub(crate) time: u64,
    pub(crate) latest: u64,
    pub(crate) explain: bool,
}

impl Session {
    // The settings of a link that names no others, two messages, and all else off or 0.
    pub(crate) fn new() -> Session {
        Session {
            cfg: Config::fmp(),
            profile: text_records::plain_profile(),
            state: None,
            calls: 0,
            time: 0,
            latest: 0,
            explain: false,
        }
    }

    // The link; before one is there, with a state of which no call reads anything.
    pub(crate) fn link(&self) -> Link {
        Link {
            state: self.state.unwrap_or_else(|| text_records::blank_state()),
            cfg: self.cfg,
            profile: self.profile,
        }
    }

    // A refused `open` answers a state with no epoch, whose peer can be reached. It stands for the link that
    // was there.
    pub(crate) fn empty(&mut self) {
        if let Some(state) = &mut self.state {
            *state = text_records::blank_state();
            state.mem.reachable = true;
        }
    }

    // Counts a call at `now`, and answers the latest instant where that lies after `now`. An `open`
    // begins anew.
    pub(crate) fn count(&mut self, call: Call, now: u64) -> Option<u64> {
        let latest = self.latest;
        self.calls = self.calls.saturating_add(1);
        self.time = now;
        if call == Call::Open {
            self.latest = now;
            return None;
        }
        self.latest = latest.max(now);
        (now < latest).then_some(latest)
    }

    // What stands before each line of the call that was counted last.
    pub(crate) fn head(&self) -> Head {
        Head {
            call: self.calls,
            time: self.time,
            explain: self.explain,
        }
    }

    // The tag of the epoch in a slot, 0 where no link is there.
    pub(crate) fn tag(&self, slot: Slot) -> u64 {
        match &self.state {
            Some(state) => tag_of(state, slot),
            None => 0,
        }
    }
}

fn tag_of(state: &State, slot: Slot) -> u64 {
    match slot {
        Slot::Current => state.cur.ep.tag,
        // Where none is pending, what stands in the record of an answered attempt.
        Slot::Pending => {
            let cycle = &state.cycle;
            cycle.pending_tag().unwrap_or(cycle.pendr.ep.tag)
        }
        Slot::Previous => state.drain.ep.tag,
    }
}
