// The notices on a row of arguments. Each promises its call's definition at what the row holds. No
// function has a `requires`. Each notice reads its instant, worker flag and spread itself: a shared reader would hand
// back a tuple to take apart, which is no shorter. The state, the settings and the profile are passed one by one, as
// crate notice and the definitions take them.
#![tactic(auto)]

ghost use Rattle.answer.specs.Answers.{Answers};
ghost use Rattle.text_words.specs.Calls.{call_no};
ghost use Rattle.text_notices.specs.Notices.{worker_on, delegated_on, undelegated_on, data_sent_on, path_on, notice_on};

use answer::Answer;
use settings::Config;
use state::{Profile, State};
use text_args::ARGS;
use text_words::Call;

mod place;

// A worker authenticated a frame.
#[tactic(auto, unfolding(crate::specs::Notices::worker_on))]
pub fn worker(
    s: State,
    cfg: Config,
    profile: Profile,
    a: &[u64; ARGS],
    log: &mut [u64; 768],
) -> Answer
    ensures { Answers (worker_on s cfg profile a.now) result log.old log.new }
{
    notice::worker(
        s,
        cfg,
        profile,
        text_args::number(a, place::NOW),
        text_args::flag(a, place::WORKERS),
        text_args::signed(a, place::SPREAD),
        text_args::number(a, place::TAG),
        text_args::flag(a, place::WORKER_K),
        text_args::number(a, place::WORKER_COUNTER),
        log,
    )
}

// A worker accepted a receive copy.
#[tactic(auto, unfolding(crate::specs::Notices::delegated_on))]
pub fn delegated(
    s: State,
    cfg: Config,
    profile: Profile,
    a: &[u64; ARGS],
    log: &mut [u64; 768],
) -> Answer
    ensures { Answers (delegated_on s cfg profile a.now) result log.old log.new }
{
    let time = text_args::number(a, place::NOW);
    let workers = text_args::flag(a, place::WORKERS);
    let spread = text_args::signed(a, place::SPREAD);
    let tag = text_args::number(a, place::TAG);
    notice::delegated(s, cfg, profile, time, workers, spread, tag, log)
}

// A worker is gone. What differs from `delegated` is the call of crate notice; a function for the two would take that
// as a closure of eight arguments, and clauses that say what it answers at any of them, which is longer than the body.
#[tactic(auto, unfolding(crate::specs::Notices::undelegated_on))]
pub fn undelegated(
    s: State,
    cfg: Config,
    profile: Profile,
    a: &[u64; ARGS],
    log: &mut [u64; 768],
) -> Answer
    ensures { Answers (undelegated_on s cfg profile a.now) result log.old log.new }
{
    let time = text_args::number(a, place::NOW);
    let workers = text_args::flag(a, place::WORKERS);
    let spread = text_args::signed(a, place::SPREAD);
    let tag = text_args::number(a, place::TAG);
    notice::undelegated(s, cfg, profile, time, workers, spread, tag, log)
}

// An application message was sealed.
#[tactic(auto, unfolding(crate::specs::Notices::data_sent_on))]
pub fn data_sent(
    s: State,
    cfg: Config,
    profile: Profile,
    a: &[u64; ARGS],
    log: &mut [u64; 768],
) -> Answer
    ensures { Answers (data_sent_on s cfg profile a.now) result log.old log.new }
{
    let time = text_args::number(a, place::NOW);
    let workers = text_args::flag(a, place::WORKERS);
    let spread = text_args::signed(a, place::SPREAD);
    notice::data_sent(s, cfg, profile, time, workers, spread, log)
}

// Whether a next hop exists, and the smoothed round trip.
#[tactic(auto, unfolding(crate::specs::Notices::path_on))]
pub fn path(
    s: State,
    cfg: Config,
    profile: Profile,
    a: &[u64; ARGS],
    log: &mut [u64; 768],
) -> Answer
    ensures { Answers (path_on s cfg profile a.now) result log.old log.new }
{
    let time = text_args::number(a, place::NOW);
    let workers = text_args::flag(a, place::WORKERS);
    let spread = text_args::signed(a, place::SPREAD);
    let reachable = text_args::flag(a, place::PATH_REACHABLE);
    let srtt = text_args::when(a, place::PATH_SRTT);
    notice::path(s, cfg, profile, time, workers, spread, reachable, srtt, log)
}

// The notice of that call; any other call is taken for `Path`.
#[tactic(auto, unfolding(crate::specs::Notices::notice_on))]
pub fn notice(
    s: State,
    cfg: Config,
    profile: Profile,
    call: Call,
    a: &[u64; ARGS],
    log: &mut [u64; 768],
) -> Answer
    ensures { Answers (notice_on (call_no call) s cfg profile a.now) result log.old log.new }
{
    match call {
        Call::Worker => worker(s, cfg, profile, a, log),
        Call::Delegated => delegated(s, cfg, profile, a, log),
        Call::Undelegated => undelegated(s, cfg, profile, a, log),
        Call::DataSent => data_sent(s, cfg, profile, a, log),
        _ => path(s, cfg, profile, a, log),
    }
}
