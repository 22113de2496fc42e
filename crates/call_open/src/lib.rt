// `open`: a fresh link at its instant (`install` of machine.rs). The arguments are those of C's call, one each.
#![tactic(auto)]

ghost use Rattle.std.specs.Prelude.{◌≡◌};
ghost use Rattle.time.specs.Time.{at as at_of};
ghost use Rattle.numbers.specs.Numbers.{purpose_current};
ghost use Rattle.events.specs.Events.{Bind, Prompt, no_rungs};
ghost use Rattle.events.specs.Told.{Tells};
ghost use Rattle.retire.specs.Retire.{only};
ghost use Rattle.answer.specs.Answers.{Answers};
ghost use Rattle.call_open.specs.Open.{new_memory, first_epoch, alone as alone_of, blank_state, install_out, open_of};
ghost use Rattle.call_open.specs.Exact.{OpenExact};

use answer::Answer;
use candidates::Candidates;
use cycle::Cycle;
use epoch::{Drain, Epoch, Ids, Index, MayEpoch};
use events::Log;
use numbers::evidence::Evidence;
use numbers::purpose::Purpose;
use settings::Config;
use state::{Bit, Memory, Profile, State};
use time::When;

// The memory of a new link (`Memory::new`), with the jitter that `install` draws.
#[tactic(auto, unfolding(crate::specs::Open::new_memory))]
fn new_memory(time: u64, spread: i32) -> Memory
    ensures { result ≡ new_memory time spread }
{
    Memory {
        peer_epoch: When::NONE,
        peer_k: Bit::NONE,
        jitter: spread,
        damp: When::NONE,
        backoff: When::NONE,
        abandons: 0,
        last_rx: When::NONE,
        rx_cur: When::NONE,
        sent_data: false,
        silence: 0,
        link_since: time,
        last_cutover: When::NONE,
        hs_rtt: When::NONE,
        srtt: When::NONE,
        setup_rto: When::NONE,
        reachable: true,
        due: false,
    }
}

// The epoch of a new link as `install` leaves it: it starts at the instant, and a responder was
// prompted then.
#[tactic(auto, unfolding(crate::specs::Open::first_epoch, crate::specs::Blank::no_final, crate::specs::Blank::no_repeats, crate::specs::Blank::no_ladder))]
fn first_epoch(responder: bool, transport: u64, lease: Index, time: u64) -> Epoch
    ensures { result ≡ first_epoch responder transport lease time }
{
    Epoch {
        tag: 1,
        ids: Ids {
            lease,
            transport,
            ..Ids::NONE
        },
        responder,
        base: When::of(time),
        started: time,
        prompted: responder.then_some(time).into(),
        ..Epoch::BLANK
    }
}

// A memory and a current epoch or none, with nothing else in the state.
#[tactic(auto, unfolding(crate::specs::Open::alone, crate::specs::Blank::no_drain, crate::specs::Blank::idle, crate::specs::Blank::no_candidates, crate::specs::Blank::no_attempt, crate::specs::Blank::no_pend_i, crate::specs::Blank::no_pend_r, crate::specs::Blank::no_epoch, crate::specs::Blank::no_final, crate::specs::Blank::no_repeats, crate::specs::Blank::no_ladder))]
fn alone(mem: Memory, cur: MayEpoch) -> State
    ensures { result ≡ alone_of mem cur }
{
    State {
        mem,
        cur,
        drain: Drain::NONE,
        cycle: Cycle::IDLE,
        cands: Candidates::NONE,
    }
}

// What a refused `open` hands back for a state.
#[tactic(auto, unfolding(crate::specs::Open::blank_state))]
fn blank() -> State
    ensures { result ≡ blank_state }
{
    alone(new_memory(0, 0), MayEpoch::NONE)
}

// With a lease, frames for its index come to the current epoch: purpose 2.
fn bind(ep: Epoch, log: &mut Log)
    ensures { Tells (only ep.ids.lease.some (Bind ep.ids.transport ep.ids.lease.index (at_of ep.tag) purpose_current)) log.old log.new }
{
    if let Some(index) = ep.ids.lease.get() {
        log.bind(ep.ids.transport, index, Some(ep.tag), Purpose::Current);
    }
}

// A responder speaks first under the new epoch, so that the peer hears that it holds it.
fn prompt(ep: Epoch, log: &mut Log)
    ensures { Tells (only ep.responder (Prompt ep.tag no_rungs)) log.old log.new }
{
    if ep.responder {
        log.prompt(ep.tag, events::NO_RUNGS);
    }
}

// What `install` tells: the epoch is that of the link's first handshake.
#[tactic(auto, using(retire::proofs::Told::tells_then), unfolding(crate::specs::Open::install_out))]
fn install(ep: Epoch, workers: bool, log: &mut Log)
    ensures { Tells (install_out ep workers) log.old log.new }
{
    bind(ep, log);
    retire::delegate(ep, workers, log);
    log.installed(ep.tag, ep.responder, Evidence::First);
    prompt(ep, log);
}

// A fresh link at its instant. Refusals 1, 2 and 7; a refused call writes nothing to the log.
#[tactic(auto, using(crate::proofs::Exact::open_exact))]
pub fn open(
    cfg: Config,
    p: Profile,
    responder: bool,
    transport: u64,
    lease: Index,
    workers: bool,
    spread: i32,
    time: u64,
    log: &mut [u64; 768],
) -> Answer
    ensures open { Answers (open_of cfg p responder transport lease workers spread time) result log.old log.new }
    ensures exact { OpenExact cfg p spread (open_of cfg p responder transport lease workers spread time) }
{
    if let Err(back) = refusal::before_open(cfg, p, spread) {
        return answer::sent_back(back, blank());
    }
    let ep = first_epoch(responder, transport, lease, time);
    let mut told = Log::new(log);
    install(ep, workers, &mut told);
    let s = alone(new_memory(time, spread), MayEpoch { some: true, ep });
    answer::finish(s, told.len(), 0)
}
