// What a poll does after its passes (machine.rs, the end of `poll`, and `withdraw`): the teardown
// tests, the start, the offers, and the prompts that can be sealed no more. The state stays.
#![tactic(auto)]

ghost use Rattle.std.specs.Prelude.{◌≡◌};
ghost use Rattle.numbers.specs.Reason.{teardown_no};
ghost use Rattle.events.specs.Events.{Teardown as TeardownTold};
ghost use Rattle.events.specs.Told.{Tells};
ghost use Rattle.retire.specs.Retire.{only};
ghost use Rattle.poll_close.specs.Closing.{tests_out, ends_now, start_out, waits_for};
ghost use Rattle.poll_close.specs.Logs.{Becomes, offer_log, go_log, closed_log};

use cycle::Cycle;
use epoch::Epoch;
use events::Log;
use numbers::cycle::Stage;
use numbers::teardown::Teardown;
use numbers::wait::Wait;
use settings::Config;
use state::{Given, State};

// A teardown is told where its test holds.
fn torn(stands: bool, why: Teardown, log: &mut Log)
    ensures { Tells (only stands (TeardownTold (teardown_no why))) log.old log.new }
{
    if stands {
        log.teardown(why);
    }
}

// The teardown tests; whether a pass or a test ended the link. OpeningIdle is not tested where a pass did.
#[tactic(auto, using(retire::proofs::Told::tells_then), unfolding(crate::specs::Closing::tests_out, crate::specs::Closing::ends_now, crate::specs::Closing::idle_now))]
fn tests(s: &State, cfg: &Config, ended: bool, log: &mut Log) -> bool
    ensures told { Tells (tests_out s.now cfg.now ended) log.old log.new }
    ensures ends { result ≡ ends_now s.now cfg.now ended }
{
    let idle = !ended && wake::opening_idle(s);
    let spent = wake::exhausted(s, cfg);
    torn(idle, Teardown::OpeningIdle, log);
    torn(spent, Teardown::CounterExhausted, log);
    ended || idle || spent
}

// A start is told while one is called for: the caller answers it with a start reply.
#[tactic(auto, unfolding(crate::specs::Closing::start_out, start::specs::Start::called_for))]
fn start(s: &State, g: Given, log: &mut Log)
    ensures { Tells (start_out s.now g) log.old log.new }
{
    if start::called_for(s, &g.cfg, g.profile, g.now) {
        if let Some(kind) = start::kind(s, &g.cfg, g.profile, g.now) {
            log.start(kind);
        }
    }
}

// An epoch is offered to a worker unless an earlier event of this answer did so. Its flag stands beside it:
// the current epoch and the drained one are records of two types, which C lays out.
#[tactic(auto, unfolding(crate::specs::Logs::offer_log))]
fn offer(some: bool, e: Epoch, workers: bool, log: &mut Log)
    ensures { Becomes (offer_log some e workers) log.old log.new }
{
    if some && !log.offered(e.tag) {
        retire::delegate(e, workers, log);
    }
}

// The start and the offers, unless the link ended.
#[tactic(auto, unfolding(crate::specs::Logs::go_log))]
fn go(s: &State, g: Given, ended: bool, log: &mut Log)
    ensures { Becomes (go_log s.now g ended) log.old log.new }
{
    if ended {
        return;
    }
    start(s, g, log);
    offer(s.cur.some, s.cur.ep, g.workers, log);
    offer(s.drain.some, s.drain.ep, g.workers, log);
}

// Whether the pending epoch is an own one that waits for evidence.
#[tactic(auto, unfolding(crate::specs::Closing::waits_for))]
fn waits_for(c: &Cycle) -> bool
    ensures { result ≡ waits_for c.now.kind c.now.pendi.wait }
{
    c.stage() == Stage::PendI && c.pendi.waits() == Wait::Evidence
}

// All that follows the passes.
pub fn close(s: &State, g: Given, ended: bool, log: &mut Log)
    ensures { Becomes (closed_log s.now g ended) log.old log.new }
{
    let ends = tests(s, &g.cfg, ended, log);
    go(s, g, ends, log);
    let pend = waits_for(&s.cycle).then_some(s.cycle.pendi.ep.tag);
    log.withdraw(s.cur.tag(), pend);
}
