// The call of a frame: a frame from the peer that authenticated is taken, or sent back by number. The arguments are
// those of C's call, one each.
#![tactic(auto)]

ghost use Rattle.std.specs.Prelude.{◌≡◌};
ghost use Rattle.refusal.specs.Refused.{refused_of};
ghost use Rattle.answer.specs.Answers.{Answers};
ghost use Rattle.frame.specs.Exact.{FrameExact};
ghost use Rattle.frame.specs.Frames.{frame_refused, frame_answer, frame_target};

use answer::Answer;
use events::Log;
use frame_slots::FrameProof;
use refusal::Refusal;
use settings::Config;
use state::{Profile, State};

// 1 to 7, then 8 and 9.
fn send_back(
    s: &State,
    cfg: Config,
    profile: Profile,
    spread: i32,
    slot: u8,
    tag: u64,
) -> Result<(), Refusal>
    ensures { refused_of result ≡ frame_refused s.now cfg profile spread slot tag }
{
    refusal::before_frame(s, cfg, profile, spread)?;
    frame_slots::frame_back(s, slot, tag)
}

// A frame. A refused call hands back the state that it was given, and writes neither to the target
// nor to the log.
pub fn frame(
    s: State,
    cfg: Config,
    profile: Profile,
    time: u64,
    workers: bool,
    spread: i32,
    p: FrameProof,
    body: usize,
    source: &[u8],
    target: &mut [u8],
    log: &mut [u64; 768],
) -> Answer
    ensures frame { Answers (frame_answer s cfg profile time workers spread p body source.now target.old) result log.old log.new }
    ensures target { target.new ≡ frame_target s cfg profile time workers spread p body source.now target.old }
    ensures exact { FrameExact s cfg profile spread p target.old (frame_answer s cfg profile time workers spread p body source.now target.old) (frame_target s cfg profile time workers spread p body source.now target.old) }
{
    if let Err(back) = send_back(&s, cfg, profile, spread, p.slot, p.tag) {
        return answer::sent_back(back, s);
    }
    let g = frame_hear::given(cfg, profile, time, workers);
    let mut told = Log::new(log);
    let left = frame_slots::frame_accepted(s, g, spread, p, body, source, target, &mut told);
    answer::finish(left, told.len(), 0)
}
