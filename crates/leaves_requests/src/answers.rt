// The answers to requests.
ghost use Rattle.std.specs.Prelude.{◌≡◌, ◌-◌, MatchResult};
ghost use Rattle.time.specs.Options.{when_of};
ghost use Rattle.time.specs.Time.{backoff_of};
ghost use Rattle.ladder.specs.Ladder.{next_at_of, due_of, take_of};
ghost use Rattle.ladder.specs.Took.{took_of};
ghost use Rattle.settings.specs.Checks.{check_place};
ghost use Rattle.settings.specs.Settings.{place_of};
ghost use Rattle.leaves_requests.specs.Answers.{said, answer_of};

use crate::requests::Request;
use ladder::{Ladder, Made, Schedule, Taken};
use params::Params;
use settings::{Check, Config};

#[derive(Clone, Copy)]
pub enum Answer {
    Number(u64),
    Made(Made),
    Step(Step),
    // The check that the settings fail.
    Failed(Option<Check>),
    Hold(u64),
    Derived(Params),
}

// When a ladder's next rung is, whether it is due, what is taken of the ladder, and how it then stands: what each method of the
// ladder answers, by itself, since a comparison with the Rust is to see each.
#[derive(Clone, Copy)]
pub struct Step {
    pub next_at: Option<u64>,
    pub due: bool,
    pub taken: Option<Taken>,
    pub left: Ladder,
}

impl Request {
    // The answer, or the check that refuses the settings. `later`, `since` and `backoff` ask the functions of crate time that the
    // rule is written with, and not std's.
    #[tactic(auto, using(crate::proofs::Laws::refused_new), unfolding(crate::specs::Answers::answer_of))]
    pub fn answer(self) -> Result<Answer, Check>
        ensures { said result ≡ answer_of self }
    {
        Ok(match self {
            Request::Later { t, d } => Answer::Number(time::later(t, d)),
            Request::Since { now, t } => Answer::Number(time::since(now, t)),
            Request::Backoff {
                exponent,
                base,
                cap,
            } => Answer::Number(time::backoff(exponent, base, cap)),
            Request::Span(resends) => Answer::Number(params::msg1_span(resends)),
            Request::Doubling { first, count, end } => {
                Answer::Made(Schedule::doubling(first, count, end))
            }
            Request::Probes {
                first,
                count,
                end,
                gap,
            } => Answer::Made(Schedule::probes(first, count, end, gap)),
            Request::Take { ladder, now } => Answer::Step(take(ladder, now)),
            Request::Check(cfg) => Answer::Failed(settings::accept(cfg).err()),
            Request::Hold { silence, cfg } => Answer::Hold(params::with_hold(cfg, silence).hold),
            Request::Wait { abandons, cfg } => Answer::Number(wait(abandons, cfg)?),
            Request::Params(cfg) => Answer::Derived(Params::accepted(cfg)?),
        })
    }
}

fn take(ladder: Ladder, now: u64) -> Step
    ensures next { when_of result.next_at ≡ next_at_of ladder }
    ensures due { result.due ≡ due_of ladder now }
    ensures took { took_of result.left result.taken ≡ take_of ladder now }
{
    let (_, next_at) = ladder.next_at();
    let (_, due) = ladder.due(now);
    let (left, taken) = ladder.take(now);
    Step {
        next_at,
        due,
        taken,
        left,
    }
}

// The backoff of settings that every check accepts.
fn wait(abandons: u8, cfg: Config) -> Result<u64, Check>
    ensures { MatchResult result (λ n. (place_of cfg ≡ 0) × (n ≡ backoff_of (abandons - 1) cfg.check cfg.hold)) (λ c. check_place c ≡ place_of cfg) }
{
    settings::accept(cfg)?;
    Ok(params::backoff(cfg, abandons))
}
