// The rows of the poll that change the cycle: each is lent the cycle, and tells its events to the log
// (`expire_pass`, `probe`, `resend` and `expire` of machine.rs).
#![tactic(auto)]

ghost use Rattle.std.specs.Prelude.{◌≡◌, [], ◌∷◌, ◌++◌, Some};
ghost use Rattle.time.specs.Options.{when_of};
ghost use Rattle.ladder.specs.Took.{took_of};
ghost use Rattle.numbers.specs.Numbers.{kind_msg3, abandon_unanswered, teardown_opening_failed};
ghost use Rattle.numbers.specs.Cases.{message_no};
ghost use Rattle.events.specs.Events.{Send, Prompt, Teardown as TeardownTold};
ghost use Rattle.events.specs.Told.{Tells};
ghost use Rattle.retire.specs.Retire.{only, abandon_out};
ghost use Rattle.poll_cycle.specs.CycleRows.{DidCycle, unadopted_due, late_for, probing, probe_due, delayed_due, first_kind, resend_taken, resend_due, abandoned_mem, expire_due};

use cycle::{Attempt, Cycle, PendI};
use events::Log;
use ladder::Taken;
use numbers::abandon::Abandon;
use numbers::cycle::Stage;
use numbers::message::Message;
use numbers::teardown::Teardown;
use settings::Config;
use state::Memory;
use time::When;

// The hold of a peer's completed attempt: every exit goes through its record.
#[tactic(auto, using(retire::proofs::Told::tells_then), unfolding(crate::specs::CycleRows::unadopted_due))]
pub fn unadopted_due(c: &mut Cycle, tag: u64, log: &mut Log)
    ensures { DidCycle (unadopted_due c.old tag) log.old c.new log.new }
{
    if !c.is_peers(tag) {
        return;
    }
    if c.pendr.answer.some {
        log.ended(tag);
    }
    retire::retire(c.pendr.ep, log);
    log.abandoned(Abandon::Unadopted);
    c.kind = numbers::cycle::IDLE;
}

// Whether the grace would pass the deadline; an epoch that came back from a revert is probed to
// the end.
#[tactic(auto, unfolding(crate::specs::CycleRows::late_for))]
fn late(p: &PendI, grace: u64, time: u64) -> bool
    ensures { result ≡ late_for p.now grace time }
{
    !p.reverted && p.deadline < time::later(time, grace)
}

// A probe's events, and the rung's prompt under the current epoch, each with the number of rungs taken.
#[tactic(auto, using(retire::proofs::Told::tells_then))]
fn probe_out(p: &PendI, current: u64, rungs: u64, log: &mut Log)
    ensures { Tells (only p.now.fin.some (Send p.now.fin.msg kind_msg3 rungs) ++ (Prompt p.now.ep.tag rungs ∷ Prompt current rungs ∷ [])) log.old log.new }
{
    if p.fin.some {
        log.send(p.fin.msg, Message::Msg3, rungs);
    }
    log.prompt(p.ep.tag, rungs);
    log.prompt(current, rungs);
}

// Probe rungs that were taken of the cycle's ladder.
#[tactic(auto, unfolding(crate::specs::CycleRows::probing))]
fn probe_taken(c: &mut Cycle, t: Taken, grace: u64, time: u64, current: u64, log: &mut Log)
    ensures { DidCycle (probing c.old (took_of c.old.pendi.probes.ladder (Some t)) grace time current) log.old c.new log.new }
{
    if t.send && !late(&c.pendi, grace, time) {
        probe_out(&c.pendi, current, t.taken, log);
        c.pendi.probed = When::of(time);
        c.pendi.stayed = false;
        return;
    }
    log.prompt(current, t.taken);
}

// A probe or keepalive rung of a completed own attempt. `current`: the current epoch's tag, if it is held.
#[tactic(auto, using(ladder::proofs::Stays::none_taken), unfolding(crate::specs::CycleRows::probe_due, crate::specs::CycleRows::probing, crate::specs::CycleRows::late_for))]
pub fn probe_due(
    c: &mut Cycle,
    current: Option<u64>,
    grace: u64,
    tag: u64,
    time: u64,
    log: &mut Log,
)
    ensures { DidCycle (probe_due c.old (when_of current).some (when_of current).at grace tag time) log.old c.new log.new }
{
    let Some(current) = current else {
        return;
    };
    if c.is_own(tag) && c.pendi.probes.some {
        if let Some(t) = c.pendi.probes.ladder.take_lent(time) {
            probe_taken(c, t, grace, time, current, log);
        }
    }
}

// A rung of a delayed cutover's retained final message.
#[tactic(auto, using(ladder::proofs::Stays::none_taken), unfolding(crate::specs::CycleRows::delayed_due))]
pub fn delayed_due(c: &mut Cycle, tag: u64, time: u64, log: &mut Log)
    ensures { DidCycle (delayed_due c.old tag time) log.old c.new log.new }
{
    if c.is_own(tag) && c.pendi.fin.some {
        if let Some(t) = c.pendi.fin.ladder.take_lent(time) {
            log.send(c.pendi.fin.msg, Message::Msg3, t.taken);
        }
    }
}

// The first message's kind: msg1 where there are two messages, else the setup.
fn first_kind(messages: u64) -> Message
    ensures { message_no result ≡ first_kind messages }
{
    if messages == 2 {
        Message::Msg1
    } else {
        Message::Setup
    }
}

// A resend rung of the own attempt. `holds`: while opening, a larger node with a candidate holds a young resend
// back; the rungs are taken all the same.
#[tactic(auto, using(ladder::proofs::Stays::none_taken), unfolding(crate::specs::CycleRows::resend_due, crate::specs::CycleRows::resend_taken))]
pub fn resend_due(c: &mut Cycle, holds: bool, young: u64, messages: u64, time: u64, log: &mut Log)
    ensures { DidCycle (resend_due c.old holds young messages time) log.old c.new log.new }
{
    if c.stage() == Stage::Init && time < c.init.deadline {
        if let Some(t) = c.init.ladder.take_lent(time) {
            if holds && t.latest < young {
                return;
            }
            log.send(c.init.out, first_kind(messages), t.taken);
            c.init.resent = true;
        }
    }
}

// One more abandoned attempt, and the instant that its backoff ends.
#[tactic(auto, using(time::proofs::Std::min_least, time::proofs::Std::sum_checked, time::specs::Laws::later_by_sum), unfolding(crate::specs::CycleRows::abandoned_mem))]
fn abandoned_mem(m: &mut Memory, cfg: Config, time: u64, extra: u32)
    ensures { m.new ≡ abandoned_mem m.old cfg time extra }
{
    m.abandons = m.abandons.saturating_add(1);
    let wait = params::backoff(cfg, m.abandons);
    let drawn = u64::from(extra) * 1000;
    m.backoff = When::of(time::later_by(time, wait.checked_add(drawn)));
}

// The own attempt ends unanswered, and the link with it where it is alone.
#[tactic(auto, using(retire::proofs::Told::tells_then))]
fn give_up(a: Attempt, alone: bool, log: &mut Log)
    ensures { Tells (abandon_out a abandon_unanswered ++ only alone (TeardownTold teardown_opening_failed)) log.old log.new }
{
    retire::abandon(a, Abandon::Unanswered, log);
    if alone {
        log.teardown(Teardown::OpeningFailed);
    }
}

// The own attempt's deadline; whether the link ends. `alone`: while opening with no candidate left, it does.
#[tactic(auto, unfolding(crate::specs::CycleRows::expire_due))]
pub fn expire_due(
    c: &mut Cycle,
    m: &mut Memory,
    cfg: Config,
    alone: bool,
    time: u64,
    extra: u32,
    log: &mut Log,
) -> bool
    ensures cycle { c.new ≡ (expire_due c.old m.old cfg alone time extra).cycle }
    ensures mem { m.new ≡ (expire_due c.old m.old cfg alone time extra).mem }
    ensures told { Tells (expire_due c.old m.old cfg alone time extra).out log.old log.new }
    ensures ends { result ≡ (expire_due c.old m.old cfg alone time extra).ends }
{
    if c.stage() == Stage::Init && c.init.deadline <= time {
        give_up(c.init, alone, log);
        c.kind = numbers::cycle::IDLE;
        abandoned_mem(m, cfg, time, extra);
        return alone;
    }
    false
}
