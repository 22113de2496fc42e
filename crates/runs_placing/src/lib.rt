// Records of a state as the published module makes them at an instant, for lists that begin in the
// middle of a link's life. No function has a `requires`.
#![tactic(auto)]

ghost use Rattle.std.specs.Prelude.{◌≡◌, false, eqb};
ghost use Rattle.time.specs.Time.{later_of, sat_add};
ghost use Rattle.state.specs.Parts.{put_cycle, put_drain, put_cands};
ghost use Rattle.runs_placing.specs.Placed.{completed, answered, wait_until, kept, kept_until, added};

use candidates::Candidates;
use cycle::{Cycle, PendI, PendR};
use epoch::{Drain, Epoch, Final, Ids, MayLadder};
use ladder::{Ladder, Schedule};
use numbers::cycle::Stage;
use numbers::wait::Wait;
use settings::Config;
use state::State;
use text_calls::Link;
use time::When;

// An own attempt that completed at `now`, under a wait by its number, which the record keeps as it is given.
#[tactic(auto, unfolding(crate::specs::Placed::completed))]
pub fn pendi(link: &Link, now: u64, wait: u8) -> State
    ensures placed { result ≡ put_cycle link.now.state (completed link.now.state.cycle result.cycle.pendi) }
    ensures wait { result.cycle.pendi.wait ≡ wait }
    ensures deadline { result.cycle.pendi.deadline ≡ wait_until link.now now wait }
    ensures tag { result.cycle.pendi.ep.tag ≡ sat_add link.now.state.cur.ep.tag 1 }
    ensures started { result.cycle.pendi.ep.started ≡ now }
{
    let kind = Wait::from(wait);
    let pendi = PendI {
        ep: own_epoch(&link.state, now, kind),
        wait,
        deadline: wait_end(link, now, wait),
        fin: final_message(link, now, wait),
        probes: probes(&link.cfg, now, kind),
        probed: by_evidence(kind, now),
        ..PendI::BLANK
    };
    let cycle = Cycle {
        kind: Stage::PendI.number(),
        pendi,
        ..link.state.cycle
    };
    State {
        cycle,
        ..link.state
    }
}

// A time that only an epoch has which waits for evidence.
fn by_evidence(wait: Wait, at: u64) -> When {
    (wait == Wait::Evidence).then_some(at).into()
}

// The epoch that an own attempt completed: the key bit is the other one than the peer's.
fn own_epoch(state: &State, now: u64, wait: Wait) -> Epoch
    ensures tag { result.tag ≡ sat_add state.now.cur.ep.tag 1 }
    ensures started { result.started ≡ now }
{
    let peer = state.mem.peer_k;
    Epoch {
        k: if peer.some { !peer.on } else { !state.cur.ep.k },
        base: by_evidence(wait, now),
        route: by_evidence(wait, 0),
        ..fresh(state, now)
    }
}

// When the wait ends: at once, with the confirmation window, or after the delay.
#[tactic(auto, using(time::proofs::Std::std_words), unfolding(crate::specs::Placed::wait_until))]
fn wait_end(link: &Link, now: u64, wait: u8) -> u64
    ensures { result ≡ wait_until link.now now wait }
{
    match Wait::from(wait) {
        Wait::Held => now,
        Wait::Evidence => time::later(now, params::confirm(link.cfg)),
        Wait::Delay => {
            let rtt = link.state.mem.hs_rtt.get().unwrap_or(0);
            time::later(now, link.cfg.delay.max(rtt))
        }
    }
}

// The third message, which three messages have: resent only where the cutover waits a fixed delay.
fn final_message(link: &Link, now: u64, wait: u8) -> Final {
    let sched = if wait == Wait::Delay.number() {
        params::delayed(link.cfg).sched
    } else {
        Schedule::EMPTY
    };
    Final {
        some: link.profile.messages == 3 && wait != Wait::Held.number(),
        msg: 0,
        ladder: Ladder::new(now, sched),
    }
}

fn probes(cfg: &Config, now: u64, wait: Wait) -> MayLadder {
    MayLadder {
        some: wait == Wait::Evidence,
        ladder: Ladder::new(now, params::probes(*cfg).sched),
    }
}

// A peer's attempt that was answered at `now`. With two messages the answer is held, to be sent again.
#[tactic(auto, unfolding(crate::specs::Placed::answered))]
pub fn pendr(link: &Link, now: u64) -> State
    ensures placed { result ≡ put_cycle link.now.state (answered link.now.state.cycle result.cycle.pendr) }
    ensures deadline { result.cycle.pendr.deadline ≡ later_of now link.now.cfg.hold }
    ensures tag { result.cycle.pendr.ep.tag ≡ sat_add link.now.state.cur.ep.tag 1 }
    ensures started { result.cycle.pendr.ep.started ≡ now }
{
    let ep = Epoch {
        responder: true,
        ..fresh(&link.state, now)
    };
    let pendr = PendR {
        ep,
        deadline: time::later(now, link.cfg.hold),
        restart: false,
        answer: (link.profile.messages == 2).then_some(0).into(),
    };
    let cycle = Cycle {
        kind: Stage::PendR.number(),
        pendr,
        ..link.state.cycle
    };
    State {
        cycle,
        ..link.state
    }
}

// The epoch before the current one, from which the link cut over at `now`. A cutover drops what the old
// epoch would have sent again.
#[tactic(auto, unfolding(crate::specs::Placed::kept, crate::specs::Placed::kept_until))]
pub fn drained(link: &Link, now: u64, evidenced: bool) -> State
    ensures placed { result ≡ put_drain link.now.state (kept result.drain.ep (kept_until link.now.cfg now evidenced) evidenced) }
    ensures tag { eqb result.drain.ep.tag link.now.state.cur.ep.tag ≡ false }
    ensures dropped { (result.drain.ep.fin.some ≡ false) × (result.drain.ep.elicit.some ≡ false) }
{
    let cfg = &link.cfg;
    let cur = &link.state.cur.ep;
    let ep = Epoch {
        tag: before(cur.tag),
        k: !cur.k,
        fin: Final::NONE,
        elicit: MayLadder::NONE,
        ..*cur
    };
    let drain = Drain {
        some: true,
        ep,
        deadline: time::later(now, if evidenced { cfg.drain } else { cfg.retention }),
        evidenced,
    };
    State {
        drain,
        ..link.state
    }
}

// A tag that is not the current one.
fn before(tag: u64) -> u64
    ensures { eqb result tag ≡ false }
{
    tag.checked_sub(1).unwrap_or(1)
}

// An epoch that a handshake made at `now`, on the current one's transport.
#[tactic(auto, using(time::proofs::Std::add_stops))]
fn fresh(state: &State, now: u64) -> Epoch
    ensures tag { result.tag ≡ sat_add state.now.cur.ep.tag 1 }
    ensures started { result.started ≡ now }
{
    let ep = &state.cur.ep;
    let ids = Ids {
        transport: ep.ids.transport,
        ..Ids::NONE
    };
    Epoch {
        tag: ep.tag.saturating_add(1),
        ids,
        started: now,
        ..Epoch::BLANK
    }
}

// One more candidate, whose setup message came at `now`. Where 32 are held nothing is added.
pub fn candidate(link: &Link, now: u64) -> State
    ensures placed { result ≡ put_cands link.now.state (added link.now.state.cands now (later_of now link.now.cfg.ttl)) }
{
    let mut next = link.state;
    add(&mut next.cands, now, time::later(now, link.cfg.ttl));
    next
}

#[tactic(auto, using(time::proofs::Std::add_stops), unfolding(crate::specs::Placed::added))]
fn add(c: &mut Candidates, now: u64, deadline: u64)
    ensures { c.new ≡ added c.old now deadline }
{
    let n = c.len;
    if n < 32 {
        c.hs[n] = 0;
        c.msg1[n] = 0;
        c.ack[n] = 0;
        c.carrier[n] = 0;
        c.route[n] = 0;
        c.born[n] = now;
        c.deadline[n] = deadline;
        c.bounded[n] = 0;
        c.bound[n] = 0;
        c.seq[n] = c.next;
        c.len = n + 1;
        c.next = c.next.saturating_add(1);
    }
}
