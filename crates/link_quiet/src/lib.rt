// The quiet test on a state's parts: whether a poll is accepted and has nothing to do. It says what
// `refusal::before_poll` and `wake::quiet` say, and reads the state where it stands.
//
// It has two parts, since most states need only the first: what the call is given, the current epoch
// and the candidates, and then the cycle and the drained epoch.
//
// What wake tells as instants is told here as tests, so that the first that holds ends them and the
// candidates are gone over once. Tried without this crate: `refusal::before_poll` and then `wake::quiet`,
// both by reference, take 63, 100 and 127 ns on the idle loads of docs/BENCHMARK.md. This takes 47, 78 and
// 99; the bar is what the older form took, 45, 87 and 134, and a poll of the published Rust takes 42, 70 and 75.
#![tactic(auto)]

ghost use Rattle.std.specs.Prelude.{◌≤◌, ◌<◌, not, ◌||◌, ◌≡◌};
ghost use Rattle.time.specs.Time.{reached_of};
ghost use Rattle.candidates.specs.Held.{firsts, earliest_of};
ghost use Rattle.candidates.specs.Repeats.{repeated};
ghost use Rattle.refusal.specs.Standing.{held_bad};
ghost use Rattle.wake.specs.Due.{ladder_instants, may_instants, fin_instants, pending_due, cycle_due, current_instants};
ghost use Rattle.link_quiet.specs.Busy.{owed_of, current_rungs, current_busy, waiting_busy, asked_back, first_busy, alone_of, cycle_busy, drain_busy, epochs_back, other_busy};

use candidates::Candidates;
use cycle::{Cycle, PendI};
use epoch::{Drain, Epoch, Final, MayEpoch, MayLadder};
use ladder::Ladder;
use numbers::cycle::Stage;
use numbers::wait::Wait;
use state::{Given, State};

// ---- instants

// Whether a rung of a ladder is due.
#[tactic(auto, using(crate::proofs::Words::rung_words), unfolding(ladder::specs::Ladder::instant_of))]
fn ladder_due(l: &Ladder, time: u64) -> bool
    ensures { result ≡ reached_of (earliest_of (ladder_instants l.now)) time }
{
    let next = l.next as usize;
    next < l.sched.rungs() && time::later(l.origin, l.sched.at[next]) <= time
}

// The two records that hold a ladder have a test each: a trait over both would be longer than the two.
#[tactic(auto, using(crate::proofs::Words::due_words), unfolding(wake::specs::Due::may_instants))]
fn may_due(m: &MayLadder, time: u64) -> bool
    ensures { result ≡ reached_of (earliest_of (may_instants m.now)) time }
{
    m.some && ladder_due(&m.ladder, time)
}

#[tactic(auto, using(crate::proofs::Words::due_words), unfolding(wake::specs::Due::fin_instants))]
fn fin_due(f: &Final, time: u64) -> bool
    ensures { result ≡ reached_of (earliest_of (fin_instants f.now)) time }
{
    f.some && ladder_due(&f.ladder, time)
}

// Whether an item of a completed own attempt is due, by its wait.
#[tactic(auto, using(crate::proofs::Words::due_words), unfolding(wake::specs::Due::pending_due))]
fn pending_due(p: &PendI, time: u64) -> bool
    ensures { result ≡ reached_of (earliest_of (pending_due p.now.wait p.now.deadline p.now.probes p.now.fin)) time }
{
    match p.waits() {
        Wait::Held => p.deadline <= time,
        Wait::Evidence => may_due(&p.probes, time) || p.deadline <= time,
        Wait::Delay => fin_due(&p.fin, time) || p.deadline <= time,
    }
}

// Whether an item of the cycle is due.
#[tactic(auto, using(crate::proofs::Words::due_words), unfolding(wake::specs::Due::cycle_due))]
fn cycle_due(c: &Cycle, time: u64) -> bool
    ensures { result ≡ reached_of (earliest_of (cycle_due c.now)) time }
{
    match c.stage() {
        Stage::Init => ladder_due(&c.init.ladder, time) || c.init.deadline <= time,
        Stage::PendI => pending_due(&c.pendi, time),
        Stage::PendR => c.pendr.deadline <= time,
        Stage::Idle => false,
    }
}

// Whether a rung of the current epoch is due: its final message's, or its prompt repeats' until the
// peer is seen to move.
#[tactic(auto, using(crate::proofs::Words::due_words), unfolding(wake::specs::Due::current_instants, wake::specs::Due::elicit_instants))]
fn current_due(e: &MayEpoch, time: u64) -> bool
    ensures { result ≡ reached_of (earliest_of (current_instants e.now)) time }
{
    let prompts = !e.ep.moved.some && may_due(&e.ep.elicit, time);
    e.some && (fin_due(&e.ep.fin, time) || prompts)
}

// ---- candidates

// Whether a deadline is reached or two have the same arrival number.
fn each(v: &Candidates, time: u64) -> bool
    ensures { result ≡ (reached_of (earliest_of (firsts v.now.len v.now.deadline)) time || repeated (firsts v.now.len v.now.seq)) }
{
    v.earliest().is_some_and(|t| t <= time) || v.repeats()
}

// The same of one to 32 candidates, in one pass where the numbers rise, as arrival numbers do. It goes by place: a
// candidate is one place of two arrays, since C holds the state, and a zip of slices would name both and their bounds.
fn both(v: &Candidates, time: u64) -> bool
    requires { (0 < v.now.len) × (v.now.len ≤ 32) }
    ensures { result ≡ (reached_of (earliest_of (firsts v.now.len v.now.deadline)) time || repeated (firsts v.now.len v.now.seq)) }
{
    if v.deadline[0] <= time {
        return true;
    }
    let mut last = v.seq[0];
    for i in 1..v.len {
        let x = v.seq[i];
        if v.deadline[i] <= time {
            return true;
        }
        if x <= last {
            return each(v, time);
        }
        last = x;
    }
    false
}

// Whether there are more than 32 candidates (3), a deadline of one is reached, or two share a
// sequence number (5). The match is on how many there are, which is no kind.
fn waiting_busy(s: &State, time: u64) -> bool
    ensures { result ≡ waiting_busy s.now time }
{
    match s.cands.len {
        0 => false,
        1..=32 => both(&s.cands, time),
        _ => true,
    }
}

// ---- the first part

// Whether an offer of an epoch is owed.
#[tactic(auto, unfolding(crate::specs::Busy::owed_of))]
fn owed(workers: bool, some: bool, e: &Epoch) -> bool
    ensures { result ≡ owed_of workers some e.now.delegated e.now.ids.lease.some }
{
    workers && some && !e.delegated && e.ids.lease.some
}

// Whether a rung of the current epoch is due, or a ladder of it is bad.
#[tactic(auto, unfolding(crate::specs::Busy::current_rungs, refusal::specs::Standing::held_bad))]
fn current_rungs(e: &MayEpoch, time: u64) -> bool
    ensures { result ≡ (reached_of (earliest_of (current_instants e.now)) time || held_bad e.now.some e.now.ep) }
{
    current_due(e, time) || e.some && refusal::epoch_bad(&e.ep)
}

// Whether a start is called for, a teardown stands, or the current epoch has a rung due, a bad ladder
// or an offer owed.
#[tactic(auto, unfolding(crate::specs::Busy::current_busy, crate::specs::Busy::current_rungs))]
fn current_busy(s: &State, g: Given) -> bool
    ensures { result ≡ current_busy s.now g.cfg g.profile g.now g.workers }
{
    start::called_for(s, &g.cfg, g.profile, g.now)
        || wake::teardown_stands(s, &g.cfg)
        || current_rungs(&s.cur, g.now)
        || owed(g.workers, s.cur.some, &s.cur.ep)
}

// Whether the settings fail a check (1), or a profile value (2) or a draw (7) lies outside its range.
#[tactic(auto, using(refusal::proofs::Settings::place_words), unfolding(crate::specs::Busy::asked_back))]
fn asked_back(g: Given, spread: i32) -> bool
    ensures { result ≡ asked_back g.cfg g.profile spread g.extra }
{
    settings::accept(g.cfg).is_err()
        || refusal::profile_bad(g.profile)
        || refusal::draws_bad(g.cfg.jitter, spread, g.extra)
}

// Whether what the call is given, the current epoch or a candidate keeps a poll from being quiet.
#[tactic(auto, unfolding(crate::specs::Busy::first_busy))]
pub fn first_busy(s: &State, g: Given, spread: i32) -> bool
    ensures { result ≡ first_busy s.now g spread }
{
    asked_back(g, spread) || current_busy(s, g) || waiting_busy(s, g.now)
}

// ---- the second part

// Whether there is neither a cycle nor a drained epoch, so that the second part has nothing to find.
#[tactic(auto, unfolding(crate::specs::Busy::alone_of))]
pub fn alone(s: &State) -> bool
    ensures { result ≡ alone_of s.now }
{
    s.cycle.stage() == Stage::Idle && !s.drain.some
}

// Whether an item of the cycle is due, or a ladder of it or of its epoch is bad.
#[tactic(auto, unfolding(crate::specs::Busy::cycle_busy))]
fn cycle_busy(c: &Cycle, time: u64) -> bool
    ensures { result ≡ cycle_busy c.now time }
{
    cycle_due(c, time) || refusal::cycle_bad(c) || refusal::pending_bad(c)
}

// Whether the drained epoch's deadline is reached, an offer of it is owed, or a ladder of it is bad.
#[tactic(auto, using(crate::proofs::Words::due_words), unfolding(crate::specs::Busy::drain_busy, refusal::specs::Standing::held_bad))]
fn drain_busy(d: &Drain, time: u64, workers: bool) -> bool
    ensures { result ≡ drain_busy d.now time workers }
{
    d.some && d.deadline <= time
        || owed(workers, d.some, &d.ep)
        || d.some && refusal::epoch_bad(&d.ep)
}

// 4, and 5 of epochs.
#[tactic(auto, unfolding(crate::specs::Busy::epochs_back))]
fn epochs_back(s: &State) -> bool
    ensures { result ≡ epochs_back s.now }
{
    refusal::epochs_bad(s) || refusal::tags_repeat(s)
}

// Whether neither the cycle nor the drained epoch keeps a poll from being quiet.
#[tactic(auto, unfolding(crate::specs::Busy::other_busy))]
pub fn other_still(s: &State, g: Given) -> bool
    ensures { result ≡ not (other_busy s.now g) }
{
    !cycle_busy(&s.cycle, g.now) && !drain_busy(&s.drain, g.now, g.workers) && !epochs_back(s)
}
