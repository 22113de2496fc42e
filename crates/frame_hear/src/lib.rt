// What an authenticated frame tells of the peer: `heard_current`, `heard_previous` and `revert` of
// machine.rs, on the whole state.
#![tactic(auto)]

ghost use Rattle.std.specs.Prelude.{◌≡◌, [], ◌∷◌};
ghost use Rattle.events.specs.Events.{Reverted, Prompt, no_rungs};
ghost use Rattle.events.specs.Told.{Tells};
ghost use Rattle.frame_hear.specs.Hear.{given_of, Did, hearing, heard_current, revert_of, assumed_heard, confirming_heard, heard_previous};

use cycle::Cycle;
use epoch::{Drain, MayEpoch};
use events::Log;
use numbers::abandon::Abandon;
use numbers::cycle::Stage;
use settings::Config;
use state::{Given, Profile, State};

// What a call that hears is given beside the state. No row of it reads the extra.
#[tactic(auto, unfolding(crate::specs::Hear::given_of))]
pub fn given(cfg: Config, profile: Profile, time: u64, workers: bool) -> Given
    ensures { result ≡ given_of cfg profile time workers }
{
    Given {
        cfg,
        profile,
        now: time,
        workers,
        extra: 0,
    }
}

// A frame under a current epoch that is held.
#[tactic(auto, unfolding(crate::specs::Hear::hearing))]
fn hear(s: State, g: Given, k: bool, blind: bool, log: &mut Log) -> State
    ensures { Did (hearing s g k blind) log.old result log.new }
{
    let ep = frame_evidence::hear_epoch(s.cur.ep, blind, g.now, log);
    let moves = frame_evidence::moves(s.cur.ep, blind);
    let grace = grace::grace(s.mem, g.cfg);
    let stayed = frame_evidence::stay(s.cycle, grace, g.now);
    State {
        mem: cutover::hear_frame(s.mem, k, g.now),
        cur: MayEpoch { some: true, ep },
        drain: frame_evidence::shorten(s.drain, moves, g.cfg.drain, g.now),
        cycle: stayed,
        cands: frame_evidence::hear_cands(s.cands, s.cur.ep, g.profile.smaller),
    }
}

// A frame under the current epoch.
#[tactic(auto, unfolding(crate::specs::Hear::heard_current))]
pub fn heard_current(s: State, g: Given, k: bool, probe: bool, log: &mut Log) -> State
    ensures { Did (heard_current s g k probe) log.old result log.new }
{
    if !s.cur.some {
        return s;
    }
    let blind = frame_evidence::is_blind(s.cur.ep, g.profile.at_proof, probe);
    hear(s, g, k, blind, log)
}

// What a revert tells.
fn revert_out(tag: u64, restored: u64, log: &mut Log)
    ensures { Tells (Reverted tag ∷ Prompt tag no_rungs ∷ Prompt restored no_rungs ∷ []) log.old log.new }
{
    log.reverted(tag);
    log.prompt(tag, events::NO_RUNGS);
    log.prompt(restored, events::NO_RUNGS);
}

// An assumed epoch goes back to pending, and the drained one is current again. Both are held.
#[tactic(auto, unfolding(crate::specs::Hear::revert_of))]
pub fn revert(s: State, cfg: Config, time: u64, log: &mut Log) -> State
    ensures { Did (revert_of s cfg time) log.old result log.new }
{
    revert_out(s.cur.ep.tag, s.drain.ep.tag, log);
    State {
        cur: MayEpoch {
            some: true,
            ep: s.drain.ep,
        },
        drain: Drain {
            some: false,
            ..s.drain
        },
        cycle: Cycle {
            kind: numbers::cycle::PENDI,
            pendi: frame_evidence::revert_pend(s.cur.ep, cfg, time),
            ..s.cycle
        },
        ..s
    }
}

// The previous epoch is heard while the current one was only assumed.
#[tactic(auto, using(retire::proofs::Told::tells_then), unfolding(crate::specs::Hear::assumed_heard))]
fn hear_assumed(s: State, g: Given, log: &mut Log) -> State
    ensures { Did (assumed_heard s g) log.old result log.new }
{
    match s.cycle.stage() {
        Stage::Init => {
            retire::abandon(s.cycle.init, Abandon::Reverted, log);
            revert(s, g.cfg, g.now, log)
        }
        Stage::PendI => {
            let grace = grace::grace(s.mem, g.cfg);
            State {
                cycle: frame_evidence::stay(s.cycle, grace, g.now),
                ..s
            }
        }
        Stage::PendR => s,
        Stage::Idle => revert(s, g.cfg, g.now, log),
    }
}

// The previous epoch is heard otherwise.
#[tactic(auto, unfolding(crate::specs::Hear::confirming_heard))]
fn hear_confirming(s: State, g: Given, log: &mut Log) -> State
    ensures { Did (confirming_heard s g) log.old result log.new }
{
    let asks = frame_evidence::confirming(s.cur, g.profile.at_proof, g.cfg, g.now);
    State {
        cur: MayEpoch {
            ep: frame_evidence::prompt_now(s.cur.ep, asks, g.now, log),
            ..s.cur
        },
        ..s
    }
}

// A frame under the previous epoch.
#[tactic(auto, unfolding(crate::specs::Hear::heard_previous))]
pub fn heard_previous(s: State, g: Given, log: &mut Log) -> State
    ensures { Did (heard_previous s g) log.old result log.new }
{
    let told = State {
        mem: frame_evidence::hear_any(s.mem, g.now),
        ..s
    };
    if frame_evidence::only_assumed(s.cur) {
        hear_assumed(told, g, log)
    } else {
        hear_confirming(told, g, log)
    }
}
