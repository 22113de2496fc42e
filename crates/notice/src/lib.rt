// The five notices as calls: what a decrypt worker and the path tell is taken, or sent back by number.
// Each takes what a poll takes except the extra; the spread is tested and not used. The arguments are those of
// C's calls, one each.
// The calls are alike in the lines that send back and finish. One function that takes the row as a closure
// would need a clause on what the closure tells, and each call would be no shorter. The round trip comes
// from C, so it stays a record.
#![tactic(auto, using(crate::proofs::Exact::notice_exact))]

ghost use Rattle.notice_rows.specs.Rows.{worker_of, delegated_of, undelegated_of, data_sent_of, path_of};
ghost use Rattle.frame_hear.specs.Hear.{given_of};
ghost use Rattle.answer.specs.Answers.{Answers};
ghost use Rattle.notice.specs.Notices.{worker_answer, delegated_answer, undelegated_answer, data_sent_answer, path_answer};
ghost use Rattle.notice.specs.Exact.{NoticeExact};

use answer::Answer;
use events::Log;
use settings::Config;
use state::{Profile, State};
use time::When;

// A worker authenticated a frame under `tag`, with that key bit and counter.
pub fn worker(
    s: State,
    cfg: Config,
    p: Profile,
    time: u64,
    workers: bool,
    spread: i32,
    tag: u64,
    k: bool,
    counter: u64,
    log: &mut [u64; 768],
) -> Answer
    ensures worker { Answers (worker_answer s cfg p time workers spread tag k counter) result log.old log.new }
    ensures exact { NoticeExact s cfg p spread (worker_answer s cfg p time workers spread tag k counter) }
{
    if let Err(back) = refusal::before_frame(&s, cfg, p, spread) {
        return answer::sent_back(back, s);
    }
    let g = frame_hear::given(cfg, p, time, workers);
    let mut told = Log::new(log);
    let left = notice_rows::worker(s, g, tag, k, counter, &mut told);
    answer::finish(left, told.len(), 0)
}

// A worker accepted the receive copy of the epoch of `tag`.
pub fn delegated(
    s: State,
    cfg: Config,
    p: Profile,
    time: u64,
    workers: bool,
    spread: i32,
    tag: u64,
    log: &mut [u64; 768],
) -> Answer
    ensures delegated { Answers (delegated_answer s cfg p spread tag) result log.old log.new }
    ensures exact { NoticeExact s cfg p spread (delegated_answer s cfg p spread tag) }
{
    if let Err(back) = refusal::before_frame(&s, cfg, p, spread) {
        return answer::sent_back(back, s);
    }
    let mut told = Log::new(log);
    let left = notice_rows::delegated(s, tag, &mut told);
    answer::finish(left, told.len(), 0)
}

// The worker that held the epoch of `tag` is gone.
pub fn undelegated(
    s: State,
    cfg: Config,
    p: Profile,
    time: u64,
    workers: bool,
    spread: i32,
    tag: u64,
    log: &mut [u64; 768],
) -> Answer
    ensures undelegated { Answers (undelegated_answer s cfg p spread tag) result log.old log.new }
    ensures exact { NoticeExact s cfg p spread (undelegated_answer s cfg p spread tag) }
{
    if let Err(back) = refusal::before_frame(&s, cfg, p, spread) {
        return answer::sent_back(back, s);
    }
    let mut told = Log::new(log);
    let left = notice_rows::undelegated(s, tag, &mut told);
    answer::finish(left, told.len(), 0)
}

// An application message was sealed. It has no event: the log stays as it was.
pub fn data_sent(
    s: State,
    cfg: Config,
    p: Profile,
    time: u64,
    workers: bool,
    spread: i32,
    log: &mut [u64; 768],
) -> Answer
    ensures sent { Answers (data_sent_answer s cfg p spread) result log.old log.new }
    ensures exact { NoticeExact s cfg p spread (data_sent_answer s cfg p spread) }
{
    if let Err(back) = refusal::before_frame(&s, cfg, p, spread) {
        return answer::sent_back(back, s);
    }
    let sealed = State {
        mem: notice_rows::data_sent(s.mem),
        ..s
    };
    answer::finish(sealed, 0, 0)
}

// Whether a next hop exists, and the smoothed round trip where it was measured. It has no event: the
// log stays as it was.
pub fn path(
    s: State,
    cfg: Config,
    p: Profile,
    time: u64,
    workers: bool,
    spread: i32,
    reachable: bool,
    srtt: When,
    log: &mut [u64; 768],
) -> Answer
    ensures path { Answers (path_answer s cfg p spread reachable srtt) result log.old log.new }
    ensures exact { NoticeExact s cfg p spread (path_answer s cfg p spread reachable srtt) }
{
    if let Err(back) = refusal::before_frame(&s, cfg, p, spread) {
        return answer::sent_back(back, s);
    }
    let routed = State {
        mem: notice_rows::path(s.mem, reachable, srtt),
        ..s
    };
    answer::finish(routed, 0, 0)
}
