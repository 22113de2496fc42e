// Params: the values that a link derives from its settings.
//
// Ported from core/src/proto/rekey/params.rs (`Params::new`, `msg1_span`, `Config::with_hold` and
// `Params::backoff`). Every function takes any settings; those that the checks accept give the
// Rust's values.
#![tactic(auto)]

ghost use Rattle.std.specs.Prelude.{◌≡◌, ◌-◌, MatchResult};
ghost use Rattle.time.specs.Options.{when_of};
ghost use Rattle.settings.specs.Checks.{check_place, told_place};
ghost use Rattle.time.specs.Time.{backoff_of};
ghost use Rattle.params.specs.Params.{last_offset, endless, probing, confirm_of, span_of, rung_of, gap_of, msg1_span, budget_of, first_made, fin_made, probes_made, revert_made, elicit_made, delayed_made, grace_of, with_hold_of, params_of, new_of};

use ladder::{Made, Schedule};
use settings::{Check, Config};

// Resends that were asked for and are in no schedule, since they fall at or after their deadline
// or find no room.
#[repr(C)]
#[derive(Clone, Copy)]
pub struct Inert {
    pub first: u8,
    pub probes: u8,
}

// Settings and every value derived from them.
#[derive(Clone, Copy)]
pub struct Params {
    pub cfg: Config,
    // The confirmation window: the handshake timeout plus one check.
    pub confirm: u64,
    // The confirmation window plus one drain window, absent where it passes 2^64 - 1.
    pub span: Option<u64>,
    // The cap on the probe grace.
    pub grace: u64,
    // The cap on the first rung of a rekey setup.
    pub rung: u64,
    // The longest gap between frames while a completed rekey awaits evidence.
    pub gap: u64,
    // The deadline of a first message's attempt.
    pub budget: u64,
    // Resends of a first message.
    pub first: Schedule,
    // Resends of a retained final message.
    pub fin: Schedule,
    // Probes of a completed rekey, with keepalives.
    pub probes: Schedule,
    // Probes after a revert, with keepalives.
    pub revert: Schedule,
    // Repeats of a prompt after a cutover.
    pub elicit: Schedule,
    // Resends of a delayed cutover's final message.
    pub delayed: Schedule,
    pub inert: Inert,
}

// Doubling resends from one second on, with no end.
fn unending(count: u8) -> Made
    ensures { result ≡ endless count }
{
    Schedule::doubling(1000, count, None)
}

// Doubling resends from one second on, with keepalives, before `end`.
fn probing_for(cfg: Config, count: u8, end: u64) -> Made
    ensures { result ≡ probing count end (gap_of cfg) }
{
    Schedule::probes(1000, count, end, gap(cfg))
}

// The offset of a schedule's last send, 0 where none sends.
#[tactic(auto, using(time::proofs::Std::unwrap_when), unfolding(crate::specs::Params::last_offset))]
fn last_offset(sched: Schedule) -> u64
    ensures { result ≡ last_offset sched }
{
    sched.last_send().unwrap_or(0)
}

// The confirmation window: the handshake timeout plus one check.
#[tactic(auto, using(time::proofs::Std::add_stops), unfolding(crate::specs::Params::confirm_of))]
pub fn confirm(cfg: Config) -> u64
    ensures { result ≡ confirm_of cfg }
{
    cfg.handshake.saturating_add(cfg.check)
}

// The confirmation window plus one drain window. It is absent where it passes 2^64 - 1: an
// instant moved by it is then unchanged, which a saturated sum would not give.
#[tactic(auto, using(time::proofs::Std::sum_checked), unfolding(crate::specs::Params::span_of))]
pub fn span(cfg: Config) -> Option<u64>
    ensures { when_of result ≡ span_of cfg }
{
    confirm(cfg).checked_add(cfg.drain)
}

// The cap on the first rung of a rekey setup: a third of the handshake less one check, in whole
// seconds.
#[tactic(auto, unfolding(crate::specs::Params::rung_of))]
pub fn rung(cfg: Config) -> u64
    ensures { result ≡ rung_of cfg }
{
    cfg.handshake.saturating_sub(cfg.check) / 1000 / 3 * 1000
}

// The longest gap between frames: half of what the drain window has above 2 seconds.
#[tactic(auto, unfolding(crate::specs::Params::gap_of))]
pub fn gap(cfg: Config) -> u64
    ensures { result ≡ gap_of cfg }
{
    cfg.drain.saturating_sub(2000) / 2
}

// The offset of the last resend of a first message, whether or not it falls inside the budget.
#[tactic(auto, unfolding(crate::specs::Params::msg1_span))]
pub fn msg1_span(resends: u8) -> u64
    ensures { result ≡ msg1_span resends }
{
    last_offset(unending(resends).sched)
}

// The deadline of a first message's attempt: the last resend plus one check, at most the
// handshake timeout.
#[tactic(auto, using(time::proofs::Std::add_capped), unfolding(crate::specs::Params::budget_of))]
pub fn budget(cfg: Config) -> u64
    ensures { result ≡ budget_of cfg }
{
    msg1_span(cfg.resends)
        .saturating_add(cfg.check)
        .min(cfg.handshake)
}

// The six schedules have a function each, since a caller wants one of them; `unending` and `probing_for` make all but the
// first.

// Resends of a first message, inside its budget.
#[tactic(auto, unfolding(crate::specs::Params::first_made))]
pub fn first(cfg: Config) -> Made
    ensures { result ≡ first_made cfg }
{
    Schedule::doubling(1000, cfg.resends, Some(budget(cfg)))
}

// Resends of a retained final message.
#[tactic(auto, unfolding(crate::specs::Params::fin_made))]
pub fn fin(cfg: Config) -> Made
    ensures { result ≡ fin_made cfg }
{
    unending(cfg.resends)
}

// Probes of a completed rekey, inside the confirmation window.
#[tactic(auto, unfolding(crate::specs::Params::probes_made))]
pub fn probes(cfg: Config) -> Made
    ensures { result ≡ probes_made cfg }
{
    probing_for(cfg, cfg.resends, confirm(cfg))
}

// Probes after a revert.
#[tactic(auto, unfolding(crate::specs::Params::revert_made))]
pub fn revert(cfg: Config) -> Made
    ensures { result ≡ revert_made cfg }
{
    probing_for(cfg, 3, cfg.revert)
}

// Repeats of a prompt after a cutover.
#[tactic(auto, unfolding(crate::specs::Params::elicit_made))]
pub fn elicit(cfg: Config) -> Made
    ensures { result ≡ elicit_made cfg }
{
    unending(2)
}

// Resends of a delayed cutover's final message.
#[tactic(auto, unfolding(crate::specs::Params::delayed_made))]
pub fn delayed(cfg: Config) -> Made
    ensures { result ≡ delayed_made cfg }
{
    unending(4)
}

// The cap on the probe grace: half of what the confirmation window has after the last probe.
#[tactic(auto, unfolding(crate::specs::Params::grace_of))]
pub fn grace(cfg: Config) -> u64
    ensures { result ≡ grace_of cfg }
{
    let last = last_offset(probes(cfg).sched);
    confirm(cfg).saturating_sub(last) / 2
}

// The settings with the hold that a link's responder needs: the longest of the drain's ceiling,
// the time in which a peer that lost the answer tries again, and `silence`, the longest that a
// kept link goes unheard.
#[tactic(auto, using(crate::proofs::Sums::hold_words), unfolding(crate::specs::Params::with_hold_of))]
pub fn with_hold(cfg: Config, silence: u64) -> Config
    ensures { result ≡ with_hold_of cfg silence }
{
    let sent = msg1_span(cfg.resends).saturating_add(cfg.handshake);
    let retry = sent.saturating_add(cfg.dampening);
    let hold = cfg.retention.max(retry).max(silence);
    Config { hold, ..cfg }
}

// The backoff after `n` abandoned attempts, before its random term: one check doubled for each
// after the first, at most the hold.
pub fn backoff(cfg: Config, n: u8) -> u64
    ensures { result ≡ backoff_of (n - 1) cfg.check cfg.hold }
{
    time::backoff(n.saturating_sub(1) as u32, cfg.check, cfg.hold)
}

impl Params {
    // Every value derived from the settings, whether or not they are accepted.
    #[tactic(auto, using(time::proofs::Std::got_when), unfolding(crate::specs::Params::params_of))]
    pub fn derived(cfg: Config) -> Params
        ensures { result ≡ params_of cfg }
    {
        let first = first(cfg);
        let probes = probes(cfg);
        Params {
            cfg,
            confirm: confirm(cfg),
            span: span(cfg),
            grace: grace(cfg),
            rung: rung(cfg),
            gap: gap(cfg),
            budget: budget(cfg),
            first: first.sched,
            fin: fin(cfg).sched,
            probes: probes.sched,
            revert: revert(cfg).sched,
            elicit: elicit(cfg).sched,
            delayed: delayed(cfg).sched,
            inert: Inert {
                first: first.dropped,
                probes: probes.dropped,
            },
        }
    }

    // The verdict on the settings, and every derived value, whether or not they are accepted.
    #[tactic(auto, unfolding(crate::specs::Params::new_of))]
    pub fn new(cfg: Config) -> (Result<(), Check>, Params)
        ensures { record { place = told_place result.0; params = result.1 } ≡ new_of cfg }
    {
        (settings::accept(cfg), Params::derived(cfg))
    }

    // The values of settings that every check accepts, or the first check that refuses them.
    #[tactic(auto, unfolding(crate::specs::Params::new_of))]
    pub fn accepted(cfg: Config) -> Result<Params, Check>
        ensures { MatchResult result (λ p. record { place = 0; params = p } ≡ new_of cfg) (λ c. check_place c ≡ (new_of cfg).place) }
    {
        settings::accept(cfg)?;
        Ok(Params::derived(cfg))
    }
}
