// The poll (machine.rs, `poll`): refusals 1 to 7, the passes, and what follows them.
#![tactic(auto, using(crate::proofs::Exact::poll_exact, crate::proofs::Acts::poll_acts))]

ghost use Rattle.poll.specs.Poll.{poll_of};
ghost use Rattle.answer.specs.Answers.{Answers};
ghost use Rattle.poll.specs.Exact.{PollExact};
ghost use Rattle.poll.specs.Acts.{PollActs};

use answer::Answer;
use events::Log;
use settings::Config;
use state::{Given, Profile, State};

// A poll at `time`. The log takes the events; a poll that is sent back leaves it as it was. The arguments are those of
// C's call, one each.
pub fn poll(
    s: State,
    cfg: Config,
    p: Profile,
    time: u64,
    workers: bool,
    spread: i32,
    extra: u32,
    log: &mut [u64; 768],
) -> Answer
    ensures poll { Answers (poll_of s cfg p time workers spread extra) result log.old log.new }
    ensures exact { PollExact s cfg p spread extra (poll_of s cfg p time workers spread extra) }
    ensures acts { PollActs s cfg p time workers (poll_of s cfg p time workers spread extra) }
{
    if let Err(back) = refusal::before_poll(&s, cfg, p, spread, extra) {
        return answer::sent_back(back, s);
    }
    let g = Given {
        cfg,
        profile: p,
        now: time,
        workers,
        extra,
    };
    let mut told = Log::new(log);
    let mut left = s;
    let t = poll_loop::passes(&mut left, g, spread, &mut told);
    poll_close::close(&left, g, t.ended, &mut told);
    answer::finish(left, told.len(), t.count)
}
