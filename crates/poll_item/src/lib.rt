// One item of a pass: the dispatch of `expire_pass` of machine.rs over the twelve kinds. A row is lent its
// part of the state.
#![tactic(auto)]

ghost use Rattle.std.specs.Prelude.{◌≡◌, Bool};
ghost use Rattle.numbers.specs.Cases.{kind_no};
ghost use Rattle.grace.specs.Grace.{grace};
ghost use Rattle.poll_epoch.specs.EpochRows.{fin_due};
ghost use Rattle.poll_cycle.specs.CycleRows.{probe_due, resend_due, expire_due};
ghost use Rattle.poll_cut.specs.Cut.{Did};
ghost use Rattle.poll_item.specs.Item.{holds, alone, on_cycle, on_cur, on_fail, other_step, item_step};

use events::Log;
use items::Due;
use numbers::item::{self, Kind};
use state::{Given, State};

// The hold-back: while opening, a larger node with a candidate.
#[tactic(auto, unfolding(crate::specs::Item::holds))]
fn holds(s: &State, smaller: bool) -> bool
    ensures { result ≡ holds s.now smaller }
{
    !s.cur.some && !smaller && 0 < s.cands.len
}

// No current epoch and no candidate left.
#[tactic(auto, unfolding(crate::specs::Item::alone))]
fn alone(s: &State) -> bool
    ensures { result ≡ alone s.now }
{
    !s.cur.some && s.cands.len == 0
}

// A probe of an own completed attempt, with the tag of the current epoch.
#[tactic(auto, unfolding(poll_cycle::specs::CycleRows::probe_due))]
fn probe(s: &mut State, g: Given, tag: u64, log: &mut Log)
    ensures { Did (on_cycle s.old (probe_due s.old.cycle s.old.cur.some s.old.cur.ep.tag (grace s.old.mem g.cfg) tag g.now)) log.old s.new Bool.false log.new }
{
    let current = s.cur.tag();
    let wait = grace::grace(s.mem, g.cfg);
    poll_cycle::probe_due(&mut s.cycle, current, wait, tag, g.now, log);
}

// A rung of the current epoch's final message, by which a repair may fall due.
fn fin(s: &mut State, tag: u64, time: u64, log: &mut Log)
    ensures { Did (on_cur s.old (fin_due s.old.cur tag time)) log.old s.new Bool.false log.new }
{
    let due = poll_epoch::fin_due(&mut s.cur, tag, time, log);
    s.mem.due = due || s.mem.due;
}

// A resend of the own attempt.
fn resend(s: &mut State, g: Given, log: &mut Log)
    ensures { Did (on_cycle s.old (resend_due s.old.cycle (holds s.old g.profile.smaller) g.cfg.young g.profile.messages g.now)) log.old s.new Bool.false log.new }
{
    let held = holds(s, g.profile.smaller);
    poll_cycle::resend_due(
        &mut s.cycle,
        held,
        g.cfg.young,
        g.profile.messages,
        g.now,
        log,
    );
}

// The own attempt's deadline; whether the link ends.
fn expire(s: &mut State, g: Given, log: &mut Log) -> bool
    ensures { Did (on_fail s.old (expire_due s.old.cycle s.old.mem g.cfg (alone s.old) g.now g.extra)) log.old s.new result log.new }
{
    let last = alone(s);
    poll_cycle::expire_due(&mut s.cycle, &mut s.mem, g.cfg, last, g.now, g.extra, log)
}

// The row of a kind. `step` runs that of a candidate itself; here a candidate runs the row of a delayed cutover, as the
// definition `other_step` has it.
#[tactic(auto, unfolding(crate::specs::Item::other_step, crate::specs::Item::low_step, crate::specs::Item::high_step))]
fn row(s: &mut State, g: Given, spread: i32, kind: Kind, key: u64, log: &mut Log) -> bool
    ensures { Did (other_step s.old g spread (kind_no kind) key) log.old s.new result log.new }
{
    match kind {
        Kind::Drain => poll_epoch::drain_due(&mut s.drain, key, log),
        Kind::Unadopted => poll_cycle::unadopted_due(&mut s.cycle, key, log),
        Kind::Held => poll_cut::held_due(s, g, spread, key, log),
        Kind::Probe => probe(s, g, key, log),
        Kind::Candidate | Kind::Delayed => poll_cycle::delayed_due(&mut s.cycle, key, g.now, log),
        Kind::Fin => fin(s, key, g.now, log),
        Kind::Elicit => poll_epoch::elicit_due(&mut s.cur, key, g.now, log),
        Kind::Confirm => poll_cut::confirm_due(s, g, spread, key, log),
        Kind::DelayEnd => poll_cut::delay_end(s, g, spread, key, log),
        Kind::Resend => resend(s, g, log),
        Kind::Expire => return expire(s, g, log),
    }
    false
}

// Any item but a candidate, by the order of the kinds; whether the link ends.
pub fn other(s: &mut State, g: Given, spread: i32, due: Due, log: &mut Log) -> bool
    ensures { Did (other_step s.old g spread due.kind due.key) log.old s.new result log.new }
{
    row(s, g, spread, Kind::from(due.kind), due.key, log)
}

// One item; whether the link ends.
#[tactic(auto, unfolding(crate::specs::Item::item_step))]
pub fn step(s: &mut State, g: Given, spread: i32, due: Due, log: &mut Log) -> bool
    ensures { Did (item_step s.old g spread due.kind due.key) log.old s.new result log.new }
{
    if due.kind == item::CANDIDATE {
        poll_cut::candidate_due(s, due.key, g.now, log);
        return false;
    }
    other(s, g, spread, due, log)
}
