// The rows of the poll that change the whole state: a candidate that is dropped, and the three that may cut
// over (`expire_pass` of machine.rs). The spread goes beside what a call is given, here and in the crates above:
// `Given` crosses to C, which gives the spread as an argument of its own.
#![tactic(auto)]

ghost use Rattle.std.specs.Prelude.{◌≡◌, Bool};
ghost use Rattle.time.specs.Pick.{pick};
ghost use Rattle.numbers.specs.Cases.{evidence_no};
ghost use Rattle.numbers.specs.Numbers.{abandon_revert_unconfirmed, abandon_peer_stayed_on_old};
ghost use Rattle.numbers.specs.Reason.{abandon_no};
ghost use Rattle.poll_cut.specs.Cut.{Did, stay, candidate_due, cut_by, held_due, delay_end, unconfirmed, assumed as assumed_step, confirm_due, pend_of};

use cutover::Pend;
use cycle::Cycle;
use events::Log;
use numbers::abandon::Abandon;
use numbers::evidence::Evidence;
use numbers::reason::Reason;
use numbers::wait::Wait;
use state::{Given, State};

// A candidate that reached its deadline is dropped.
#[tactic(auto, unfolding(crate::specs::Cut::candidate_due))]
pub fn candidate_due(s: &mut State, seq: u64, time: u64, log: &mut Log)
    ensures { Did (candidate_due s.old seq time) log.old s.new Bool.false log.new }
{
    if s.cands.expire(seq, time) {
        log.reject(Reason::CandidateExpired);
    }
}

// The pending epoch of an own completed attempt, taken out for a cutover.
fn pend_of(c: &Cycle) -> Pend
    ensures { result ≡ pend_of c.now }
{
    Pend {
        ep: c.pendi.ep,
        restart: c.pendi.restart,
        fin: c.pendi.fin,
    }
}

// A cutover without a frame: its evidence is a proof, an assumption or a delay.
#[tactic(auto, unfolding(crate::specs::Cut::cut_by))]
fn cut_by(s: &mut State, g: Given, spread: i32, evidence: Evidence, log: &mut Log)
    ensures { Did (cut_by s.old g spread (evidence_no evidence)) log.old s.new Bool.false log.new }
{
    let p = pend_of(&s.cycle);
    *s = cutover::cutover(*s, g, spread, p, evidence, false, log);
}

// The completion itself proves the peer holds the keys. Apart from `delay_end`, which differs in the wait and
// the evidence: a function of both would take these two more, and is one test and one call as well.
#[tactic(auto, unfolding(crate::specs::Cut::held_due))]
pub fn held_due(s: &mut State, g: Given, spread: i32, tag: u64, log: &mut Log)
    ensures { Did (held_due s.old g spread tag) log.old s.new Bool.false log.new }
{
    if s.cycle.is_own(tag) && s.cycle.pendi.waits() == Wait::Held {
        cut_by(s, g, spread, Evidence::Proof, log);
    }
}

// A delayed cutover's deadline.
#[tactic(auto, unfolding(crate::specs::Cut::delay_end))]
pub fn delay_end(s: &mut State, g: Given, spread: i32, tag: u64, log: &mut Log)
    ensures { Did (delay_end s.old g spread tag) log.old s.new Bool.false log.new }
{
    if s.cycle.is_own(tag) && s.cycle.pendi.waits() == Wait::Delay {
        cut_by(s, g, spread, Evidence::Delay, log);
    }
}

// Why an unconfirmed epoch is given up: its revert was not confirmed, or the peer stayed.
fn cause(reverted: bool) -> Abandon
    ensures { abandon_no result ≡ pick reverted abandon_revert_unconfirmed abandon_peer_stayed_on_old }
{
    if reverted {
        Abandon::RevertUnconfirmed
    } else {
        Abandon::PeerStayedOnOld
    }
}

#[tactic(auto, using(retire::proofs::Told::tells_then), unfolding(crate::specs::Cut::unconfirmed))]
fn unconfirmed_due(s: &mut State, log: &mut Log)
    ensures { Did (unconfirmed s.old) log.old s.new Bool.false log.new }
{
    retire::retire(s.cycle.pendi.ep, log);
    log.abandoned(cause(s.cycle.pendi.reverted));
    s.cycle.kind = numbers::cycle::IDLE;
    s.mem.due = true;
}

#[tactic(auto, unfolding(crate::specs::Cut::assumed))]
fn assumed_due(s: &mut State, g: Given, spread: i32, log: &mut Log)
    ensures { Did (assumed_step s.old g spread) log.old s.new Bool.false log.new }
{
    cut_by(s, g, spread, Evidence::Assumed, log);
    s.cur.ep.assumed = true;
}

// The confirmation deadline of a completed own attempt.
#[tactic(auto, unfolding(crate::specs::Cut::confirm_due))]
pub fn confirm_due(s: &mut State, g: Given, spread: i32, tag: u64, log: &mut Log)
    ensures { Did (confirm_due s.old g spread tag) log.old s.new Bool.false log.new }
{
    let c = &s.cycle;
    if c.is_own(tag) && c.pendi.waits() == Wait::Evidence && c.pendi.deadline <= g.now {
        if c.pendi.stayed || c.pendi.reverted {
            unconfirmed_due(s, log);
        } else {
            assumed_due(s, g, spread, log);
        }
    }
}
