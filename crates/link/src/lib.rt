// The calls of a link, as crate link_c exports them for Rust and C: each is the proved call and promises what
// that call promises. Records cross by value, laid out as C does; no enum crosses; the log and a frame's two
// buffers are lent. The arguments are those of C's calls, one each.
#![tactic(auto)]

ghost use Rattle.std.specs.Prelude.{◌≡◌, []};
ghost use Rattle.settings.specs.Settings.{fmp, fsp, place_of};
ghost use Rattle.answer.specs.Answers.{Answers};
ghost use Rattle.call_open.specs.Open.{open_of};
ghost use Rattle.call_open.specs.Exact.{OpenExact};
ghost use Rattle.call_sent.specs.Exact.{ToldExact};
ghost use Rattle.call_read.specs.Exact.{WakeExact, StatusExact};
ghost use Rattle.call_sent.specs.Told.{told_of};
ghost use Rattle.call_read.specs.Read.{woke_of, status_of};
ghost use Rattle.link_sample.specs.Sample.{whole_of, values_of, flags_of, beside_of, proof_of, answer_of};
ghost use Rattle.frame.specs.Frames.{frame_answer, frame_target};
ghost use Rattle.frame.specs.Exact.{FrameExact};
ghost use Rattle.notice.specs.Notices.{worker_answer, delegated_answer, undelegated_answer, data_sent_answer, path_answer};
ghost use Rattle.notice.specs.Exact.{NoticeExact};
ghost use Rattle.call_reply.specs.Reply.{reply_of};
ghost use Rattle.call_reply.specs.Exact.{ReplyExact};
ghost use Rattle.poll.specs.Poll.{poll_of};
ghost use Rattle.poll.specs.Exact.{PollExact};
ghost use Rattle.poll.specs.Acts.{PollActs};
ghost use Rattle.law_status.specs.Line.{QuietLine};
ghost use Rattle.law_runs.specs.Link.{TwoRuns};
ghost use Rattle.link.specs.Quiet.{Tells};

use answer::Answer;
use call_read::{Shown, Woke};
use call_reply::StartReply;
use epoch::Index;
use frame_slots::FrameProof;
use settings::Config;
use state::{Given, Profile, State};
use time::When;

// The place of the first check that refuses the settings, from 1; 0 where they are accepted.
pub fn siklyavon_settings(cfg: Config) -> u8
    ensures { result ≡ place_of cfg }
{
    settings::place(cfg)
}

// The settings of a link that names no others.
pub fn siklyavon_config_fmp() -> Config
    ensures { result ≡ fmp }
{
    Config::fmp()
}

// The settings of an end-to-end session that names no others.
pub fn siklyavon_config_fsp() -> Config
    ensures { result ≡ fsp }
{
    Config::fsp()
}

// A fresh link at its instant.
#[tactic(auto, using(call_open::proofs::Exact::open_exact))]
pub fn siklyavon_open(
    cfg: Config,
    p: Profile,
    responder: bool,
    transport: u64,
    lease: Index,
    workers: bool,
    spread: i32,
    time: u64,
    log: &mut [u64; 768],
) -> Answer
    ensures open { Answers (open_of cfg p responder transport lease workers spread time) result log.old log.new }
    ensures exact { OpenExact cfg p spread (open_of cfg p responder transport lease workers spread time) }
{
    call_open::open(
        cfg, p, responder, transport, lease, workers, spread, time, log,
    )
}

// A poll at `time`. The log takes the events; a poll that is sent back leaves it as it was.
#[tactic(auto, using(poll::proofs::Exact::poll_exact, poll::proofs::Acts::poll_acts, law_runs::proofs::Holds::two_runs))]
pub fn siklyavon_poll(
    s: State,
    cfg: Config,
    p: Profile,
    time: u64,
    workers: bool,
    spread: i32,
    extra: u32,
    log: &mut [u64; 768],
) -> Answer
    ensures poll { Answers (poll_of s cfg p time workers spread extra) result log.old log.new }
    ensures exact { PollExact s cfg p spread extra (poll_of s cfg p time workers spread extra) }
    ensures acts { PollActs s cfg p time workers (poll_of s cfg p time workers spread extra) }
    ensures runs { TwoRuns }
{
    poll::poll(s, cfg, p, time, workers, spread, extra, log)
}

// A frame that authenticated. Its plaintext is at the front of the source; the target takes what is
// delivered.
#[tactic(auto, using(law_runs::proofs::Holds::two_runs))]
pub fn siklyavon_frame(
    s: State,
    cfg: Config,
    profile: Profile,
    time: u64,
    workers: bool,
    spread: i32,
    p: FrameProof,
    body: usize,
    source: &[u8],
    target: &mut [u8],
    log: &mut [u64; 768],
) -> Answer
    ensures frame { Answers (frame_answer s cfg profile time workers spread p body source.now target.old) result log.old log.new }
    ensures target { target.new ≡ frame_target s cfg profile time workers spread p body source.now target.old }
    ensures exact { FrameExact s cfg profile spread p target.old (frame_answer s cfg profile time workers spread p body source.now target.old) (frame_target s cfg profile time workers spread p body source.now target.old) }
    ensures runs { TwoRuns }
{
    frame::frame(
        s, cfg, profile, time, workers, spread, p, body, source, target, log,
    )
}

// The answer to a START: whether an attempt was opened, and its numbers.
#[tactic(auto, using(law_runs::proofs::Holds::two_runs))]
pub fn siklyavon_reply(s: State, cfg: Config, profile: Profile, time: u64, r: StartReply) -> Answer
    ensures reply { Answers (reply_of s cfg profile time r) result [] [] }
    ensures exact { ReplyExact s cfg profile time (reply_of s cfg profile time r) }
    ensures runs { TwoRuns }
{
    call_reply::reply(s, cfg, profile, time, r)
}

// A decrypt worker authenticated a frame under `tag`, with that key bit and counter.
#[tactic(auto, using(notice::proofs::Exact::notice_exact, law_runs::proofs::Holds::two_runs))]
pub fn siklyavon_worker(
    s: State,
    cfg: Config,
    p: Profile,
    time: u64,
    workers: bool,
    spread: i32,
    tag: u64,
    k: bool,
    counter: u64,
    log: &mut [u64; 768],
) -> Answer
    ensures worker { Answers (worker_answer s cfg p time workers spread tag k counter) result log.old log.new }
    ensures exact { NoticeExact s cfg p spread (worker_answer s cfg p time workers spread tag k counter) }
    ensures runs { TwoRuns }
{
    notice::worker(s, cfg, p, time, workers, spread, tag, k, counter, log)
}

// A decrypt worker accepted the receive copy of the epoch of `tag`.
#[tactic(auto, using(notice::proofs::Exact::notice_exact, law_runs::proofs::Holds::two_runs))]
pub fn siklyavon_delegated(
    s: State,
    cfg: Config,
    p: Profile,
    time: u64,
    workers: bool,
    spread: i32,
    tag: u64,
    log: &mut [u64; 768],
) -> Answer
    ensures delegated { Answers (delegated_answer s cfg p spread tag) result log.old log.new }
    ensures exact { NoticeExact s cfg p spread (delegated_answer s cfg p spread tag) }
    ensures runs { TwoRuns }
{
    notice::delegated(s, cfg, p, time, workers, spread, tag, log)
}

// The decrypt worker that held the epoch of `tag` is gone.
#[tactic(auto, using(notice::proofs::Exact::notice_exact, law_runs::proofs::Holds::two_runs))]
pub fn siklyavon_undelegated(
    s: State,
    cfg: Config,
    p: Profile,
    time: u64,
    workers: bool,
    spread: i32,
    tag: u64,
    log: &mut [u64; 768],
) -> Answer
    ensures undelegated { Answers (undelegated_answer s cfg p spread tag) result log.old log.new }
    ensures exact { NoticeExact s cfg p spread (undelegated_answer s cfg p spread tag) }
    ensures runs { TwoRuns }
{
    notice::undelegated(s, cfg, p, time, workers, spread, tag, log)
}

// An application message was sealed.
#[tactic(auto, using(notice::proofs::Exact::notice_exact, law_runs::proofs::Holds::two_runs))]
pub fn siklyavon_data_sent(
    s: State,
    cfg: Config,
    p: Profile,
    time: u64,
    workers: bool,
    spread: i32,
    log: &mut [u64; 768],
) -> Answer
    ensures sent { Answers (data_sent_answer s cfg p spread) result log.old log.new }
    ensures exact { NoticeExact s cfg p spread (data_sent_answer s cfg p spread) }
    ensures runs { TwoRuns }
{
    notice::data_sent(s, cfg, p, time, workers, spread, log)
}

// Whether a next hop exists, and the smoothed round trip where it was measured.
#[tactic(auto, using(notice::proofs::Exact::notice_exact, law_runs::proofs::Holds::two_runs))]
pub fn siklyavon_path(
    s: State,
    cfg: Config,
    p: Profile,
    time: u64,
    workers: bool,
    spread: i32,
    reachable: bool,
    srtt: When,
    log: &mut [u64; 768],
) -> Answer
    ensures path { Answers (path_answer s cfg p spread reachable srtt) result log.old log.new }
    ensures exact { NoticeExact s cfg p spread (path_answer s cfg p spread reachable srtt) }
    ensures runs { TwoRuns }
{
    notice::path(s, cfg, p, time, workers, spread, reachable, srtt, log)
}

// The current epoch's sent count is told at `time`, with which the call is logged. The answer does
// not depend on it.
#[tactic(auto, using(law_runs::proofs::Holds::two_runs))]
pub fn siklyavon_sent(s: State, time: u64, count: u64) -> Answer
    ensures sent { Answers (told_of s count) result [] [] }
    ensures exact { ToldExact s count (told_of s count) }
    ensures runs { TwoRuns }
{
    call_sent::told(s, time, count)
}

// The wake: where workers are off and something is held, a poll before it has nothing to do (the wake
// clause of demand 3 has the conditions). It may itself come too early.
pub fn siklyavon_wake(s: State, cfg: Config, p: Profile) -> Woke
    ensures wake { result ≡ woke_of s cfg p }
    ensures exact { WakeExact s cfg p (woke_of s cfg p) }
{
    call_read::wake(s, cfg, p)
}

// The link line. Its quiet time is the time since the current epoch was heard or started, whichever is
// later: `QuietLine` says what each call does to it.
#[tactic(auto, using(law_status::proofs::Line::quiet_line))]
pub fn siklyavon_status(s: State, cfg: Config, p: Profile, time: u64) -> Shown
    ensures status { result ≡ status_of s cfg p time }
    ensures exact { StatusExact s cfg p time (status_of s cfg p time) }
    ensures line { QuietLine }
{
    call_read::status(s, cfg, p, time)
}

// Whether a poll of the lent state is quiet: accepted, with no item due, no start called for, no
// teardown standing and no offer owed. Then it would give the state back, with no event and count 0;
// every other poll is for the log. The state is read where it stands.
pub fn siklyavon_quiet(s: &State, g: Given, spread: i32) -> bool
    ensures { Tells s.now g spread result }
{
    !link_quiet::first_busy(s, g, spread) && (link_quiet::alone(s) || link_quiet::other_still(s, g))
}

// A sample of the record, for the caller's layout.
pub fn siklyavon_sample_state(spread: i32) -> State
    ensures { result ≡ whole_of spread }
{
    link_sample::whole(spread)
}

// A sample of the record, for the caller's layout.
pub fn siklyavon_sample_config() -> Config
    ensures { result ≡ values_of }
{
    link_sample::values()
}

// A sample of the record, for the caller's layout.
pub fn siklyavon_sample_profile() -> Profile
    ensures { result ≡ flags_of }
{
    link_sample::flags()
}

// A sample of the record, for the caller's layout.
pub fn siklyavon_sample_given() -> Given
    ensures { result ≡ beside_of }
{
    link_sample::beside()
}

// A sample of the record, for the caller's layout.
pub fn siklyavon_sample_proof() -> FrameProof
    ensures { result ≡ proof_of }
{
    link_sample::proof()
}

// A sample of the record, for the caller's layout.
pub fn siklyavon_sample_reply() -> StartReply
    ensures { result ≡ answer_of }
{
    link_sample::answer()
}
