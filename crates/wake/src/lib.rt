// The next wake, and whether a poll has something to do (machine.rs: `due`, `next_wake` and the
// teardown tests of `poll`).
#![tactic(auto)]

ghost use Rattle.std.specs.Prelude.{◌≡◌, ℕ, List};
ghost use Rattle.time.specs.Options.{when_of};
ghost use Rattle.time.specs.Time.{reached_of};
ghost use Rattle.candidates.specs.Held.{earliest_of};
ghost use Rattle.start.specs.Start.{instants};
ghost use Rattle.wake.specs.Due.{may_instants, fin_instants, elicit_instants, pending_due, cycle_with, current_instants, standing, due_instants, any_due};
ghost use Rattle.wake.specs.Wake.{exhausted as exhausted_of, pending_waits, stored_instants, wake_of};
ghost use Rattle.wake.specs.Quiet.{offerable, opening_idle, teardown_stands, offer_owed, quiet_of};

use cycle::{Cycle, PendI};
use epoch::{Epoch, Final, MayEpoch, MayLadder};
use numbers::cycle::Stage;
use numbers::wait::Wait;
use settings::Config;
use state::{Profile, State};

// The next instant of a ladder that may be absent.
#[tactic(auto, unfolding(crate::specs::Due::ladder_instants, crate::specs::Due::may_instants))]
pub fn may_next(m: MayLadder) -> Option<u64>
    ensures { instants (when_of result) ≡ may_instants m }
{
    if m.some { m.ladder.next_at().1 } else { None }
}

// The next instant of a final message's ladder: `may_next` of another record, which C lays out.
#[tactic(auto, unfolding(crate::specs::Due::ladder_instants, crate::specs::Due::fin_instants))]
pub fn fin_next(f: Final) -> Option<u64>
    ensures { instants (when_of result) ≡ fin_instants f }
{
    if f.some { f.ladder.next_at().1 } else { None }
}

// The prompt repeats' next instant, until the peer is seen to move.
#[tactic(auto, unfolding(crate::specs::Due::elicit_instants))]
pub fn elicit_next(moved: bool, m: MayLadder) -> Option<u64>
    ensures { instants (when_of result) ≡ elicit_instants moved m }
{
    if moved { None } else { may_next(m) }
}

// What a completed own attempt waits for under any wait.
fn pending_next(p: &PendI) -> Option<u64>
    ensures { when_of result ≡ earliest_of (pending_waits p.now) }
{
    let ladders = time::sooner(may_next(p.probes), fin_next(p.fin));
    time::sooner(Some(p.deadline), ladders)
}

// What it waits for under its own wait.
fn pending_due(p: &PendI) -> Option<u64>
    ensures { when_of result ≡ earliest_of (pending_due p.now.wait p.now.deadline p.now.probes p.now.fin) }
{
    match p.waits() {
        Wait::Held => Some(p.deadline),
        Wait::Evidence => time::sooner(may_next(p.probes), Some(p.deadline)),
        Wait::Delay => time::sooner(fin_next(p.fin), Some(p.deadline)),
    }
}

// The least instant of the cycle, where `pending` is that of a completed own attempt.
fn cycle_next(c: &Cycle, pending: Option<u64>) -> Option<u64>
    ensures { (l : List ℕ) → when_of pending ≡ earliest_of l → when_of result ≡ earliest_of (cycle_with c.now l) }
{
    match c.stage() {
        Stage::Init => time::sooner(c.init.ladder.next_at().1, Some(c.init.deadline)),
        Stage::PendI => pending,
        Stage::PendR => Some(c.pendr.deadline),
        Stage::Idle => None,
    }
}

// The ladders of the current epoch: its final message's, and its prompt repeats' until the peer is
// seen to move.
fn current_next(e: &MayEpoch) -> Option<u64>
    ensures { when_of result ≡ earliest_of (current_instants e.now) }
{
    if e.some {
        let elicit = elicit_next(e.ep.moved.some, e.ep.elicit);
        time::sooner(fin_next(e.ep.fin), elicit)
    } else {
        None
    }
}

// The least instant of the drain, the candidates, the cycle and the current epoch, where `cycle` is
// that of the cycle.
fn standing_next(s: &State, cycle: Option<u64>) -> Option<u64>
    ensures { (l : List ℕ) → when_of cycle ≡ earliest_of l → when_of result ≡ earliest_of (standing s.now l) }
{
    let drain = s.drain.some.then_some(s.drain.deadline);
    let rest = time::sooner(cycle, current_next(&s.cur));
    time::sooner(drain, time::sooner(s.cands.earliest(), rest))
}

// The least instant of an item.
fn due_next(s: &State) -> Option<u64>
    ensures { when_of result ≡ earliest_of (due_instants s.now) }
{
    let pending = pending_due(&s.cycle.pendi);
    standing_next(s, cycle_next(&s.cycle, pending))
}

// The least stored instant that the wake counts.
fn stored_next(s: &State) -> Option<u64>
    ensures { when_of result ≡ earliest_of (stored_instants s.now) }
{
    let pending = pending_next(&s.cycle.pendi);
    standing_next(s, cycle_next(&s.cycle, pending))
}

// Whether the current epoch's sent count has reached the hard limit.
#[tactic(auto, unfolding(crate::specs::Wake::exhausted))]
pub fn exhausted(s: &State, cfg: &Config) -> bool
    ensures { result ≡ exhausted_of s.now cfg.now }
{
    s.cur.some && cfg.hard <= s.cur.ep.sent
}

// The wake: the least instant that a stored deadline, a ladder or a start condition names. It counts the
// ladders of a waiting initiator under every wait, so it may come before there is anything to do.
// Settings and profile stand one by one, as C hands them over.
pub fn next_wake(s: &State, cfg: &Config, p: Profile) -> Option<u64>
    ensures { when_of result ≡ wake_of s.now cfg.now p }
{
    let start = start::at(s, cfg, p);
    // An exhausted counter tears down at the next poll; its epoch's start is already past.
    let hard = exhausted(s, cfg).then_some(s.cur.ep.started);
    time::sooner(stored_next(s), time::sooner(start, hard))
}

// Whether an instant is there and not after `now`.
fn is_reached(w: Option<u64>, now: u64) -> bool
    ensures { result ≡ reached_of (when_of w) now }
{
    w.is_some_and(|t| t <= now)
}

// Whether an item is due.
pub fn any_due(s: &State, now: u64) -> bool
    ensures { result ≡ any_due s.now now }
{
    is_reached(due_next(s), now)
}

// Whether the first handshake is over without an epoch: no current one, nothing in progress and no
// candidate.
#[tactic(auto, unfolding(crate::specs::Quiet::opening_idle))]
pub fn opening_idle(s: &State) -> bool
    ensures { result ≡ opening_idle s.now }
{
    !s.cur.some && s.cycle.stage() == Stage::Idle && s.cands.len == 0
}

// Whether a teardown test of `poll` holds.
#[tactic(auto, unfolding(crate::specs::Quiet::teardown_stands))]
pub fn teardown_stands(s: &State, cfg: &Config) -> bool
    ensures { result ≡ teardown_stands s.now cfg.now }
{
    opening_idle(s) || exhausted(s, cfg)
}

// Whether an epoch is received here and bound.
fn is_offerable(e: &Epoch) -> bool
    ensures { result ≡ offerable e.now }
{
    !e.delegated && e.ids.lease.some
}

// Whether the receive half of an epoch is to be offered to a worker.
#[tactic(auto, unfolding(crate::specs::Quiet::offer_owed))]
pub fn offer_owed(s: &State, workers: bool) -> bool
    ensures { result ≡ offer_owed s.now workers }
{
    let current = s.cur.some && is_offerable(&s.cur.ep);
    workers && (current || s.drain.some && is_offerable(&s.drain.ep))
}

// Whether a poll has nothing to do.
#[tactic(auto, unfolding(crate::specs::Quiet::quiet_of))]
pub fn quiet(s: &State, cfg: &Config, p: Profile, now: u64, workers: bool) -> bool
    ensures { result ≡ quiet_of s.now cfg.now p now workers }
{
    !any_due(s, now)
        && !start::called_for(s, cfg, p, now)
        && !teardown_stands(s, cfg)
        && !offer_owed(s, workers)
}
