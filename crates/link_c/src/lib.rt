// The calls of crate link under the same names, exported for Rust and C: each promises what the function that it
// calls promises, word for word. Records cross by value, laid out as C does; no enum crosses; the log and a
// frame's two buffers are lent. The C interface needs both crates: a static library exports what its own crate
// defines, and no crate can depend on one, so what crates of Rattle can call stands in crate link.
#![tactic(auto)]

ghost use Rattle.std.specs.Prelude.{◌≡◌, []};
ghost use Rattle.settings.specs.Settings.{fmp, fsp, place_of};
ghost use Rattle.answer.specs.Answers.{Answers};
ghost use Rattle.call_open.specs.Open.{open_of};
ghost use Rattle.call_open.specs.Exact.{OpenExact};
ghost use Rattle.call_sent.specs.Exact.{ToldExact};
ghost use Rattle.call_read.specs.Exact.{WakeExact, StatusExact};
ghost use Rattle.call_sent.specs.Told.{told_of};
ghost use Rattle.call_read.specs.Read.{woke_of, status_of};
ghost use Rattle.link_sample.specs.Sample.{whole_of, values_of, flags_of, beside_of, proof_of, answer_of};
ghost use Rattle.frame.specs.Frames.{frame_answer, frame_target};
ghost use Rattle.frame.specs.Exact.{FrameExact};
ghost use Rattle.notice.specs.Notices.{worker_answer, delegated_answer, undelegated_answer, data_sent_answer, path_answer};
ghost use Rattle.notice.specs.Exact.{NoticeExact};
ghost use Rattle.call_reply.specs.Reply.{reply_of};
ghost use Rattle.call_reply.specs.Exact.{ReplyExact};
ghost use Rattle.poll.specs.Poll.{poll_of};
ghost use Rattle.poll.specs.Exact.{PollExact};
ghost use Rattle.poll.specs.Acts.{PollActs};
ghost use Rattle.law_status.specs.Line.{QuietLine};
ghost use Rattle.law_runs.specs.Link.{TwoRuns};
ghost use Rattle.link.specs.Quiet.{Tells};

use answer::Answer;
use call_read::{Shown, Woke};
use call_reply::StartReply;
use epoch::Index;
use frame_slots::FrameProof;
use settings::Config;
use state::{Given, Profile, State};
use time::When;

#[unsafe(no_mangle)]
pub extern "C" fn siklyavon_settings(cfg: Config) -> u8
    ensures { result ≡ place_of cfg }
{
    link::siklyavon_settings(cfg)
}

#[unsafe(no_mangle)]
pub extern "C" fn siklyavon_config_fmp() -> Config
    ensures { result ≡ fmp }
{
    link::siklyavon_config_fmp()
}

#[unsafe(no_mangle)]
pub extern "C" fn siklyavon_config_fsp() -> Config
    ensures { result ≡ fsp }
{
    link::siklyavon_config_fsp()
}

#[unsafe(no_mangle)]
pub extern "C" fn siklyavon_open(
    cfg: Config,
    p: Profile,
    responder: bool,
    transport: u64,
    lease: Index,
    workers: bool,
    spread: i32,
    time: u64,
    log: &mut [u64; 768],
) -> Answer
    ensures open { Answers (open_of cfg p responder transport lease workers spread time) result log.old log.new }
    ensures exact { OpenExact cfg p spread (open_of cfg p responder transport lease workers spread time) }
{
    link::siklyavon_open(
        cfg, p, responder, transport, lease, workers, spread, time, log,
    )
}

#[unsafe(no_mangle)]
pub extern "C" fn siklyavon_poll(
    s: State,
    cfg: Config,
    p: Profile,
    time: u64,
    workers: bool,
    spread: i32,
    extra: u32,
    log: &mut [u64; 768],
) -> Answer
    ensures poll { Answers (poll_of s cfg p time workers spread extra) result log.old log.new }
    ensures exact { PollExact s cfg p spread extra (poll_of s cfg p time workers spread extra) }
    ensures acts { PollActs s cfg p time workers (poll_of s cfg p time workers spread extra) }
    ensures runs { TwoRuns }
{
    link::siklyavon_poll(s, cfg, p, time, workers, spread, extra, log)
}

#[unsafe(no_mangle)]
pub extern "C" fn siklyavon_frame(
    s: State,
    cfg: Config,
    profile: Profile,
    time: u64,
    workers: bool,
    spread: i32,
    p: FrameProof,
    body: usize,
    source: &[u8],
    target: &mut [u8],
    log: &mut [u64; 768],
) -> Answer
    ensures frame { Answers (frame_answer s cfg profile time workers spread p body source.now target.old) result log.old log.new }
    ensures target { target.new ≡ frame_target s cfg profile time workers spread p body source.now target.old }
    ensures exact { FrameExact s cfg profile spread p target.old (frame_answer s cfg profile time workers spread p body source.now target.old) (frame_target s cfg profile time workers spread p body source.now target.old) }
    ensures runs { TwoRuns }
{
    link::siklyavon_frame(
        s, cfg, profile, time, workers, spread, p, body, source, target, log,
    )
}

#[unsafe(no_mangle)]
pub extern "C" fn siklyavon_reply(
    s: State,
    cfg: Config,
    profile: Profile,
    time: u64,
    r: StartReply,
) -> Answer
    ensures reply { Answers (reply_of s cfg profile time r) result [] [] }
    ensures exact { ReplyExact s cfg profile time (reply_of s cfg profile time r) }
    ensures runs { TwoRuns }
{
    link::siklyavon_reply(s, cfg, profile, time, r)
}

#[unsafe(no_mangle)]
pub extern "C" fn siklyavon_worker(
    s: State,
    cfg: Config,
    p: Profile,
    time: u64,
    workers: bool,
    spread: i32,
    tag: u64,
    k: bool,
    counter: u64,
    log: &mut [u64; 768],
) -> Answer
    ensures worker { Answers (worker_answer s cfg p time workers spread tag k counter) result log.old log.new }
    ensures exact { NoticeExact s cfg p spread (worker_answer s cfg p time workers spread tag k counter) }
    ensures runs { TwoRuns }
{
    link::siklyavon_worker(s, cfg, p, time, workers, spread, tag, k, counter, log)
}

#[unsafe(no_mangle)]
pub extern "C" fn siklyavon_delegated(
    s: State,
    cfg: Config,
    p: Profile,
    time: u64,
    workers: bool,
    spread: i32,
    tag: u64,
    log: &mut [u64; 768],
) -> Answer
    ensures delegated { Answers (delegated_answer s cfg p spread tag) result log.old log.new }
    ensures exact { NoticeExact s cfg p spread (delegated_answer s cfg p spread tag) }
    ensures runs { TwoRuns }
{
    link::siklyavon_delegated(s, cfg, p, time, workers, spread, tag, log)
}

#[unsafe(no_mangle)]
pub extern "C" fn siklyavon_undelegated(
    s: State,
    cfg: Config,
    p: Profile,
    time: u64,
    workers: bool,
    spread: i32,
    tag: u64,
    log: &mut [u64; 768],
) -> Answer
    ensures undelegated { Answers (undelegated_answer s cfg p spread tag) result log.old log.new }
    ensures exact { NoticeExact s cfg p spread (undelegated_answer s cfg p spread tag) }
    ensures runs { TwoRuns }
{
    link::siklyavon_undelegated(s, cfg, p, time, workers, spread, tag, log)
}

#[unsafe(no_mangle)]
pub extern "C" fn siklyavon_data_sent(
    s: State,
    cfg: Config,
    p: Profile,
    time: u64,
    workers: bool,
    spread: i32,
    log: &mut [u64; 768],
) -> Answer
    ensures sent { Answers (data_sent_answer s cfg p spread) result log.old log.new }
    ensures exact { NoticeExact s cfg p spread (data_sent_answer s cfg p spread) }
    ensures runs { TwoRuns }
{
    link::siklyavon_data_sent(s, cfg, p, time, workers, spread, log)
}

#[unsafe(no_mangle)]
pub extern "C" fn siklyavon_path(
    s: State,
    cfg: Config,
    p: Profile,
    time: u64,
    workers: bool,
    spread: i32,
    reachable: bool,
    srtt: When,
    log: &mut [u64; 768],
) -> Answer
    ensures path { Answers (path_answer s cfg p spread reachable srtt) result log.old log.new }
    ensures exact { NoticeExact s cfg p spread (path_answer s cfg p spread reachable srtt) }
    ensures runs { TwoRuns }
{
    link::siklyavon_path(s, cfg, p, time, workers, spread, reachable, srtt, log)
}

#[unsafe(no_mangle)]
pub extern "C" fn siklyavon_sent(s: State, time: u64, count: u64) -> Answer
    ensures sent { Answers (told_of s count) result [] [] }
    ensures exact { ToldExact s count (told_of s count) }
    ensures runs { TwoRuns }
{
    link::siklyavon_sent(s, time, count)
}

#[unsafe(no_mangle)]
pub extern "C" fn siklyavon_wake(s: State, cfg: Config, p: Profile) -> Woke
    ensures wake { result ≡ woke_of s cfg p }
    ensures exact { WakeExact s cfg p (woke_of s cfg p) }
{
    link::siklyavon_wake(s, cfg, p)
}

#[unsafe(no_mangle)]
pub extern "C" fn siklyavon_status(s: State, cfg: Config, p: Profile, time: u64) -> Shown
    ensures status { result ≡ status_of s cfg p time }
    ensures exact { StatusExact s cfg p time (status_of s cfg p time) }
    ensures line { QuietLine }
{
    link::siklyavon_status(s, cfg, p, time)
}

#[unsafe(no_mangle)]
pub extern "C" fn siklyavon_quiet(s: &State, g: Given, spread: i32) -> bool
    ensures { Tells s.now g spread result }
{
    link::siklyavon_quiet(s, g, spread)
}

#[unsafe(no_mangle)]
pub extern "C" fn siklyavon_sample_state(spread: i32) -> State
    ensures { result ≡ whole_of spread }
{
    link::siklyavon_sample_state(spread)
}

#[unsafe(no_mangle)]
pub extern "C" fn siklyavon_sample_config() -> Config
    ensures { result ≡ values_of }
{
    link::siklyavon_sample_config()
}

#[unsafe(no_mangle)]
pub extern "C" fn siklyavon_sample_profile() -> Profile
    ensures { result ≡ flags_of }
{
    link::siklyavon_sample_profile()
}

#[unsafe(no_mangle)]
pub extern "C" fn siklyavon_sample_given() -> Given
    ensures { result ≡ beside_of }
{
    link::siklyavon_sample_given()
}

#[unsafe(no_mangle)]
pub extern "C" fn siklyavon_sample_proof() -> FrameProof
    ensures { result ≡ proof_of }
{
    link::siklyavon_sample_proof()
}

#[unsafe(no_mangle)]
pub extern "C" fn siklyavon_sample_reply() -> StartReply
    ensures { result ≡ answer_of }
{
    link::siklyavon_sample_reply()
}
