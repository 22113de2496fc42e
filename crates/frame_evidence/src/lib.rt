// What an authenticated frame tells of each part of the state: the rows of `heard_current`,
// `heard_previous` and `revert` of machine.rs that change one part alone.
#![tactic(auto)]

ghost use Rattle.std.specs.Prelude.{◌≡◌};
ghost use Rattle.frame_evidence.specs.Evidence.{Did, blind_to, prompt_due, staying, moves_now, heard_first, heard_cands, moved_first, shortened, prompted_now, stayed_now, heard_epoch, unassumed, reverted_pend, heard_any, only_assumed, confirming as confirming_of};

use candidates::Candidates;
use cycle::{Cycle, PendI};
use epoch::{Drain, Epoch, Final, MayEpoch, MayLadder};
use events::Log;
use ladder::Ladder;
use numbers::cycle::Stage;
use numbers::wait::Wait;
use settings::Config;
use state::Memory;
use time::When;

// Whether a probe heard under the epoch does not show that the initiator moved.
#[tactic(auto, unfolding(crate::specs::Evidence::blind_to))]
pub fn is_blind(ep: Epoch, proof: bool, probe: bool) -> bool
    ensures { result ≡ blind_to ep proof probe }
{
    probe && proof && ep.responder
}

// Whether the gap since the last prompt, one second, has passed.
#[tactic(auto, unfolding(crate::specs::Evidence::prompt_due))]
fn prompt_due(w: When, time: u64) -> bool
    ensures { result ≡ prompt_due w time }
{
    w.get().is_none_or(|t| time::later(t, 1000) <= time)
}

// Whether an own completed attempt waits for evidence and the grace after its last probe has passed.
#[tactic(auto, unfolding(crate::specs::Evidence::staying))]
fn stays(c: Cycle, grace: u64, time: u64) -> bool
    ensures { result ≡ staying c grace time }
{
    c.stage() == Stage::PendI
        && c.pendi.waits() == Wait::Evidence
        && c.pendi
            .probed
            .get()
            .is_some_and(|t| time::later(t, grace) <= time)
}

// Whether this is the first frame that shows that the peer moved.
#[tactic(auto, unfolding(crate::specs::Evidence::moves_now))]
pub fn moves(ep: Epoch, blind: bool) -> bool
    ensures { result ≡ moves_now ep blind }
{
    !blind && !ep.moved.some
}

// The first frame heard under an epoch.
#[tactic(auto, unfolding(crate::specs::Evidence::heard_first))]
fn hear_first(ep: Epoch, time: u64) -> Epoch
    ensures { result ≡ heard_first ep time }
{
    if ep.heard.some {
        return ep;
    }
    Epoch {
        heard: When::of(time),
        assumed: false,
        fin: Final {
            some: false,
            ..ep.fin
        },
        ..ep
    }
}

// The candidates, where the first frame heard drops a final message.
#[tactic(auto, unfolding(crate::specs::Evidence::heard_cands))]
pub fn hear_cands(mut v: Candidates, ep: Epoch, smaller: bool) -> Candidates
    ensures { result ≡ heard_cands v ep smaller }
{
    if !ep.heard.some && ep.fin.some {
        if smaller {
            v.clear();
        } else {
            v.keep_born_after(ep.started);
        }
    }
    v
}

// The first frame that shows that the peer moved.
#[tactic(auto, unfolding(crate::specs::Evidence::moved_first))]
fn move_first(ep: Epoch, blind: bool, time: u64) -> Epoch
    ensures { result ≡ moved_first ep blind time }
{
    if !moves(ep, blind) {
        return ep;
    }
    Epoch {
        moved: When::of(time),
        elicit: MayLadder {
            some: false,
            ..ep.elicit
        },
        ..ep
    }
}

// The drain is shortened once, and its deadline only falls.
#[tactic(auto, using(time::proofs::Std::std_words), unfolding(crate::specs::Evidence::shortened))]
pub fn shorten(d: Drain, moves: bool, hold: u64, time: u64) -> Drain
    ensures { result ≡ shortened d moves hold time }
{
    if moves && d.some && !d.evidenced {
        Drain {
            deadline: d.deadline.min(time::later(time, hold)),
            evidenced: true,
            ..d
        }
    } else {
        d
    }
}

// A prompt, where it is asked for and the gap has passed.
#[tactic(auto, unfolding(crate::specs::Evidence::prompted_now))]
pub fn prompt_now(ep: Epoch, asks: bool, time: u64, log: &mut Log) -> Epoch
    ensures { Did (prompted_now ep asks time) log.old result log.new }
{
    if asks && prompt_due(ep.prompted, time) {
        log.prompt(ep.tag, events::NO_RUNGS);
        Epoch {
            prompted: When::of(time),
            ..ep
        }
    } else {
        ep
    }
}

// The peer was heard where it stays if it did not move.
#[tactic(auto, unfolding(crate::specs::Evidence::stayed_now))]
pub fn stay(mut c: Cycle, grace: u64, time: u64) -> Cycle
    ensures { result ≡ stayed_now c grace time }
{
    if stays(c, grace, time) {
        c.pendi.stayed = true;
    }
    c
}

// The current epoch after a frame.
#[tactic(auto, unfolding(crate::specs::Evidence::heard_epoch))]
pub fn hear_epoch(ep: Epoch, blind: bool, time: u64, log: &mut Log) -> Epoch
    ensures { Did (heard_epoch ep blind time) log.old result log.new }
{
    let heard = hear_first(ep, time);
    let moved = move_first(heard, blind, time);
    prompt_now(moved, blind, time, log)
}

// An assumed epoch as it goes back to pending.
#[tactic(auto, unfolding(crate::specs::Evidence::unassumed))]
fn unassume(mut ep: Epoch) -> Epoch
    ensures { result ≡ unassumed ep }
{
    ep.assumed = false;
    ep.elicit.some = false;
    ep.fin.some = false;
    ep
}

// It waits for evidence again.
#[tactic(auto, unfolding(crate::specs::Evidence::reverted_pend))]
pub fn revert_pend(ep: Epoch, cfg: Config, time: u64) -> PendI
    ensures { result ≡ reverted_pend ep cfg time }
{
    PendI {
        ep: unassume(ep),
        wait: numbers::wait::EVIDENCE,
        deadline: time::later(time, cfg.revert),
        restart: false,
        fin: Final {
            some: false,
            ..ep.fin
        },
        probes: MayLadder {
            some: true,
            ladder: Ladder::new(time, params::revert(cfg).sched),
        },
        probed: When::of(time),
        stayed: false,
        reverted: true,
    }
}

// What a frame under any epoch tells.
#[tactic(auto, unfolding(crate::specs::Evidence::heard_any))]
pub fn hear_any(m: Memory, time: u64) -> Memory
    ensures { result ≡ heard_any m time }
{
    Memory {
        last_rx: When::of(time),
        ..m
    }
}

// Whether the current epoch was installed without evidence and nothing was heard under it.
#[tactic(auto, unfolding(crate::specs::Evidence::only_assumed))]
pub fn only_assumed(cur: MayEpoch) -> bool
    ensures { result ≡ only_assumed cur }
{
    cur.some && cur.ep.assumed && !cur.ep.heard.some
}

// Whether the initiator may not have moved yet, and the time for it is not over.
#[tactic(auto, unfolding(crate::specs::Evidence::confirming))]
pub fn confirming(cur: MayEpoch, proof: bool, cfg: Config, time: u64) -> bool
    ensures { result ≡ confirming_of cur proof cfg time }
{
    cur.some
        && proof
        && cur.ep.responder
        && !cur.ep.moved.some
        && time < time::later_by(cur.ep.started, params::span(cfg))
}
