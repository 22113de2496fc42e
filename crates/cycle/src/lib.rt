// The rotation cycle: a kind beside the records of its cases (cycle.rs).
//
// The kind is a number of `numbers::cycle`; any other counts as idle. Only the record of the kind's own
// case is part of the state. Each record is laid out as C does, so the kind and the wait stay numbers.
#![tactic(auto)]

ghost use Rattle.std.specs.Prelude.{◌≡◌, option_map};
ghost use Rattle.numbers.specs.Cases.{at_idle, at_init, at_pend_i, at_pend_r, at_held, at_evidence, at_delay};
ghost use Rattle.cycle.specs.Kind.{is_idle, is_init, is_pend_i, is_pend_r, waits_held, waits_evidence, waits_delay};
ghost use Rattle.cycle.specs.Held.{pending, is_own, is_peers};

use epoch::{Epoch, Final, Index, MayLadder};
use ladder::Ladder;
use numbers::cycle::Stage;
use numbers::wait::Wait;
use time::When;

// An own attempt in flight.
#[repr(C)]
#[derive(Clone, Copy)]
pub struct Attempt {
    pub hs: u64,
    // The first message, resent byte for byte.
    pub out: u64,
    pub lease: Index,
    pub transport: u64,
    pub first: u64,
    pub ladder: Ladder,
    pub deadline: u64,
    pub resent: bool,
}

impl Attempt {
    // What stands in a cycle without one: zeros.
    pub const BLANK: Attempt = Attempt {
        hs: 0,
        out: 0,
        lease: Index::NONE,
        transport: 0,
        first: 0,
        ladder: Ladder::EMPTY,
        deadline: 0,
        resent: false,
    };
}

// An own attempt that completed. The wait is a number of `numbers::wait`; any other counts as a delay.
#[repr(C)]
#[derive(Clone, Copy)]
pub struct PendI {
    pub ep: Epoch,
    pub wait: u8,
    pub deadline: u64,
    // The completion revealed the peer restarted.
    pub restart: bool,
    pub fin: Final,
    // Probe and keepalive rungs while waiting for evidence.
    pub probes: MayLadder,
    pub probed: When,
    // The peer was heard on an epoch it stays on if it did not move.
    pub stayed: bool,
    // The epoch came back here from an assumed cutover.
    pub reverted: bool,
}

// A peer attempt that completed, held until the peer's first frame under it.
#[repr(C)]
#[derive(Clone, Copy)]
pub struct PendR {
    pub ep: Epoch,
    pub deadline: u64,
    pub restart: bool,
    pub answer: When,
}

#[repr(C)]
#[derive(Clone, Copy)]
pub struct Cycle {
    pub kind: u8,
    pub init: Attempt,
    pub pendi: PendI,
    pub pendr: PendR,
}

impl PendI {
    // What stands in a cycle without one: zeros.
    pub const BLANK: PendI = PendI {
        ep: Epoch::BLANK,
        wait: numbers::wait::HELD,
        deadline: 0,
        restart: false,
        fin: Final::NONE,
        probes: MayLadder::NONE,
        probed: When::NONE,
        stayed: false,
        reverted: false,
    };

    // What it waits for.
    pub fn waits(&self) -> Wait
        ensures held { waits_held self.now.wait ≡ at_held result }
        ensures evidence { waits_evidence self.now.wait ≡ at_evidence result }
        ensures delay { waits_delay self.now.wait ≡ at_delay result }
    {
        Wait::from(self.wait)
    }
}

impl PendR {
    // What stands in a cycle without one: zeros.
    pub const BLANK: PendR = PendR {
        ep: Epoch::BLANK,
        deadline: 0,
        restart: false,
        answer: When::NONE,
    };
}

impl Cycle {
    // Nothing in progress.
    pub const IDLE: Cycle = Cycle {
        kind: numbers::cycle::IDLE,
        init: Attempt::BLANK,
        pendi: PendI::BLANK,
        pendr: PendR::BLANK,
    };

    // The kind of its case.
    pub fn stage(&self) -> Stage
        ensures init { is_init self.now.kind ≡ at_init result }
        ensures pend_i { is_pend_i self.now.kind ≡ at_pend_i result }
        ensures pend_r { is_pend_r self.now.kind ≡ at_pend_r result }
        ensures idle { is_idle self.now.kind ≡ at_idle result }
    {
        Stage::from(self.kind)
    }

    // The pending epoch, in either role, where there is one.
    #[tactic(auto, unfolding(crate::specs::Held::pending))]
    pub fn pending(&self) -> Option<&Epoch>
        ensures { option_map (λ e. e.now) result ≡ pending self.now }
    {
        match self.stage() {
            Stage::PendI => Some(&self.pendi.ep),
            Stage::PendR => Some(&self.pendr.ep),
            Stage::Idle | Stage::Init => None,
        }
    }

    // The pending epoch's tag, where there is one.
    #[tactic(auto, unfolding(crate::specs::Held::pending))]
    pub fn pending_tag(&self) -> Option<u64>
        ensures { result ≡ option_map (λ e. e.tag) (pending self.now) }
    {
        self.pending().map(|e| e.tag)
    }

    // Whether an own completed attempt is held under `tag`.
    #[tactic(auto, unfolding(crate::specs::Held::is_own, epoch::specs::Held::is_tag))]
    pub fn is_own(&self, tag: u64) -> bool
        ensures { result ≡ is_own self.now tag }
    {
        self.stage() == Stage::PendI && self.pendi.ep.tag == tag
    }

    // Whether a peer's completed attempt is held under `tag`.
    #[tactic(auto, unfolding(crate::specs::Held::is_peers, epoch::specs::Held::is_tag))]
    pub fn is_peers(&self, tag: u64) -> bool
        ensures { result ≡ is_peers self.now tag }
    {
        self.stage() == Stage::PendR && self.pendr.ep.tag == tag
    }
}
