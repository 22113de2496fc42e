// `cutover` of machine.rs: a pending epoch becomes current, part by part.
#![tactic(auto)]

ghost use Rattle.std.specs.Prelude.{◌≡◌, Bool};
ghost use Rattle.time.specs.Pick.{pick, and};
ghost use Rattle.ladder.specs.Ladder.{anew};
ghost use Rattle.params.specs.Params.{elicit_made};
ghost use Rattle.events.specs.Events.{PeerRestarted};
ghost use Rattle.events.specs.Told.{Tells};
ghost use Rattle.retire.specs.Retire.{only};
ghost use Rattle.cutover.specs.Cutover.{is_frame, prunes as prunes_of, pruned, demoted, given_up, spent as spent_of, kept_fin, heard_now, adopted, remembered, announced, heard_frame, cutover_of};

use candidates::Candidates;
use cycle::Cycle;
use epoch::{Drain, Epoch, Final, MayEpoch, MayLadder};
use events::Log;
use ladder::Ladder;
use numbers::evidence;
use numbers::numbered::Numbered;
use settings::Config;
use state::{Bit, Given, Memory, State};
use time::When;

// A pending epoch taken out of its cycle for a cutover.
#[derive(Clone, Copy)]
pub struct Pend {
    pub ep: Epoch,
    pub restart: bool,
    pub fin: Final,
}

// Whether the candidates are dropped. A proof or a frame drops them; otherwise the smaller node, which
// keeps its completed attempt, does.
#[tactic(auto, unfolding(crate::specs::Cutover::prunes))]
fn prunes(evidence: u64, smaller: bool) -> bool
    ensures { result ≡ prunes_of evidence smaller }
{
    matches!(evidence, evidence::PROOF | evidence::FRAME) || smaller
}

#[tactic(auto, unfolding(crate::specs::Cutover::pruned))]
fn prune(mut v: Candidates, evidence: u64, smaller: bool) -> Candidates
    ensures { result ≡ pruned v evidence smaller }
{
    if prunes(evidence, smaller) {
        v.clear();
    }
    v
}

// How long the old epoch is drained: the window after evidence, else up to the ceiling.
fn hold(evidence: u64, cfg: Config) -> u64
    ensures { result ≡ pick (is_frame evidence) cfg.drain cfg.retention }
{
    if evidence == evidence::FRAME {
        cfg.drain
    } else {
        cfg.retention
    }
}

// The old epoch as the drain, where the peer did not restart.
#[tactic(auto, unfolding(crate::specs::Cutover::demoted))]
fn demote(old: Epoch, restart: bool, evidence: u64, cfg: Config, time: u64) -> Drain
    ensures { result ≡ demoted old restart evidence cfg time }
{
    let mut ep = old;
    ep.fin.some = false;
    ep.elicit.some = false;
    Drain {
        some: !restart,
        ep,
        deadline: time::later(time, hold(evidence, cfg)),
        evidenced: evidence == evidence::FRAME,
    }
}

// The open drain is retired first, the old epoch after a restart.
#[tactic(auto, using(retire::proofs::Told::tells_then), unfolding(crate::specs::Cutover::given_up))]
fn give_up(d: Drain, old: Epoch, restart: bool, log: &mut Log)
    ensures { Tells (given_up d old restart) log.old log.new }
{
    if d.some {
        retire::retire(d.ep, log);
    }
    if restart {
        retire::retire(old, log);
    }
}

// Whether a retained final message can be sent again: only after a delayed cutover, and only while
// its ladder has a rung.
#[tactic(auto, unfolding(crate::specs::Cutover::kept_fin))]
fn keeps(fin: Final, evidence: u64) -> bool
    ensures { result ≡ (kept_fin fin evidence).some }
{
    fin.some && evidence == evidence::DELAY && fin.ladder.next_at().1.is_some()
}

// A retained final message of a delayed cutover whose ladder is spent: a repair falls due.
#[tactic(auto, unfolding(crate::specs::Cutover::spent))]
fn spent(fin: Final, evidence: u64) -> bool
    ensures { result ≡ spent_of fin evidence }
{
    fin.some && evidence == evidence::DELAY && fin.ladder.next_at().1.is_none()
}

#[tactic(auto, unfolding(crate::specs::Cutover::heard_now))]
fn heard_now(w: When, evidence: u64, time: u64) -> When
    ensures { result ≡ heard_now w evidence time }
{
    if evidence == evidence::FRAME {
        When::of(time)
    } else {
        w
    }
}

// Prompt repeats until the peer is seen to move.
fn elicits(moved: bool, l: MayLadder, cfg: Config, time: u64) -> MayLadder
    ensures { result ≡ pick moved l (record { some = Bool.true; ladder = anew time (elicit_made cfg).sched }) }
{
    if moved {
        return l;
    }
    MayLadder {
        some: true,
        ladder: Ladder::new(time, params::elicit(cfg).sched),
    }
}

// The new epoch.
#[tactic(auto, unfolding(crate::specs::Cutover::adopted, crate::specs::Cutover::kept_fin))]
fn adopt(ep: Epoch, fin: Final, evidence: u64, cfg: Config, time: u64) -> Epoch
    ensures { result ≡ adopted ep fin evidence cfg time }
{
    let moved = heard_now(ep.moved, evidence, time);
    Epoch {
        base: When::of(ep.base.get().unwrap_or(time)),
        started: time,
        heard: heard_now(ep.heard, evidence, time),
        moved,
        fin: Final {
            some: keeps(fin, evidence),
            ..fin
        },
        elicit: elicits(moved.some, ep.elicit, cfg, time),
        prompted: When::of(time),
        ..ep
    }
}

// What a frame under the current epoch tells.
#[tactic(auto, unfolding(crate::specs::Cutover::heard_frame))]
pub fn hear_frame(m: Memory, k: bool, time: u64) -> Memory
    ensures { result ≡ heard_frame m k time }
{
    let now = When::of(time);
    Memory {
        last_rx: now,
        rx_cur: now,
        peer_k: Bit { some: true, on: k },
        sent_data: false,
        silence: 0,
        ..m
    }
}

// The memory after a cutover: the link's age is reset by a restart only.
#[tactic(auto, unfolding(crate::specs::Cutover::remembered, crate::specs::Cutover::cut_memory))]
fn remember(
    m: Memory,
    restart: bool,
    due: bool,
    evidence: u64,
    k: bool,
    spread: i32,
    time: u64,
) -> Memory
    ensures { result ≡ remembered m restart due evidence k spread time }
{
    let mut m2 = m;
    m2.jitter = spread;
    m2.link_since = since_of(m.link_since, restart, time);
    m2.last_cutover = When::of(time);
    m2.abandons = 0;
    m2.due = due || m.due;
    if evidence == evidence::FRAME {
        hear_frame(m2, k, time)
    } else {
        m2
    }
}

fn since_of(since: u64, restart: bool, time: u64) -> u64
    ensures { result ≡ pick restart time since }
{
    if restart { time } else { since }
}

// The peer's new startup epoch, where it restarted and told one.
fn restarted(restart: bool, peer: When, log: &mut Log)
    ensures { Tells (only (and restart peer.some) (PeerRestarted peer.at)) log.old log.new }
{
    if restart && peer.some {
        log.peer_restarted(peer.at);
    }
}

// What is told of the new epoch.
#[tactic(auto, using(retire::proofs::Told::tells_then), unfolding(crate::specs::Cutover::announced))]
fn announce(ep: Epoch, restart: bool, peer: When, evidence: u64, workers: bool, log: &mut Log)
    ensures { Tells (announced ep restart peer evidence workers) log.old log.new }
{
    retire::delegate(ep, workers, log);
    log.installed(ep.tag, ep.responder, evidence);
    restarted(restart, peer, log);
    log.prompt(ep.tag, events::NO_RUNGS);
    log.rekeyed(ep.responder);
}

// The candidates are pruned, an open drain is retired, the current epoch is retired after a restart
// or drained otherwise, the new epoch is installed, and the cutover is told. Every part of the state is made anew
// from the old one, so it takes a state and gives one: stores to a lent state would be no plainer.
#[tactic(auto, using(retire::proofs::Told::tells_then), unfolding(crate::specs::Cutover::cutover_of))]
pub fn cutover<N: Numbered>(
    s: State,
    g: Given,
    spread: i32,
    p: Pend,
    evidence: N,
    k: bool,
    log: &mut Log,
) -> State
    ensures state { result ≡ (cutover_of s g spread p (N.number_of evidence) k).state }
    ensures told { Tells (cutover_of s g spread p (N.number_of evidence) k).out log.old log.new }
{
    let evidence = evidence.to_number();
    let old = s.cur.ep;
    give_up(s.drain, old, p.restart, log);
    let ep = adopt(p.ep, p.fin, evidence, g.cfg, g.now);
    let due = spent(p.fin, evidence);
    announce(ep, p.restart, s.mem.peer_epoch, evidence, g.workers, log);
    State {
        mem: remember(s.mem, p.restart, due, evidence, k, spread, g.now),
        cur: MayEpoch { some: true, ep },
        drain: demote(old, p.restart, evidence, g.cfg, g.now),
        cycle: Cycle {
            kind: numbers::cycle::IDLE,
            ..s.cycle
        },
        cands: prune(s.cands, evidence, g.profile.smaller),
    }
}
