// The call of a start reply: the caller says whether the start that was called for opened an attempt
// (`Rekey::start` of machine.rs, with the silence count of its `poll`). Settings and profile stand one by one, as C hands
// them over.
#![tactic(auto)]

ghost use Rattle.std.specs.Prelude.{◌≡◌, []};
ghost use Rattle.time.specs.Time.{least};
ghost use Rattle.start.specs.Start.{kind_given};
ghost use Rattle.refusal.specs.Refused.{refused_of};
ghost use Rattle.answer.specs.Answers.{Answers};
ghost use Rattle.call_reply.specs.Reply.{setup_rtt, setup_first, setup_sched, attempt_sched, attempt_time, attempt_of, raises_silence, silence_after, memory_after, started_of, taken_of, reply_refused, reply_of};
ghost use Rattle.call_reply.specs.Exact.{ReplyExact};

use answer::Answer;
use cycle::Attempt;
use epoch::Index;
use ladder::{Ladder, Schedule};
use numbers::cycle::Stage;
use numbers::start::Start;
use refusal::Refusal;
use settings::Config;
use state::{Memory, Profile, State};

// Whether the start opened an attempt, and the numbers of its handshake, its first message, its
// transport and its lease or none. It crosses to C: without an attempt the flag is off.
#[repr(C)]
#[derive(Clone, Copy)]
pub struct StartReply {
    pub opened: bool,
    pub hs: u64,
    pub msg: u64,
    pub transport: u64,
    pub lease: Index,
}

// The longer of the round trips that were measured.
#[tactic(auto, using(time::proofs::Std::std_words), unfolding(crate::specs::Reply::setup_rtt))]
fn setup_rtt(m: &Memory) -> u64
    ensures { result ≡ setup_rtt m.now }
{
    let handshake = m.hs_rtt.get().unwrap_or(0);
    handshake.max(m.srtt.get().unwrap_or(0))
}

// The first interval of a setup's resends: two round trips, at least a second and the backoff kept
// from an earlier setup, at most the settings' rung.
#[tactic(auto, using(time::proofs::Std::std_words), unfolding(crate::specs::Reply::setup_first))]
fn setup_first(m: &Memory, cfg: Config) -> u64
    ensures { result ≡ setup_first m.now cfg }
{
    let two = setup_rtt(m).saturating_mul(2);
    let kept = m.setup_rto.get().unwrap_or(0);
    let first = two.max(1000).max(kept);
    first.min(params::rung(cfg))
}

// A setup's resends, as many as end before the handshake timeout.
#[tactic(auto, unfolding(crate::specs::Reply::setup_sched))]
fn setup_sched(m: &Memory, cfg: Config) -> Schedule
    ensures { result ≡ setup_sched m.now cfg }
{
    Schedule::doubling(setup_first(m, cfg), 255, Some(cfg.handshake)).sched
}

// The attempt's resends: a handshake of three messages measures its round trip.
#[tactic(auto, unfolding(crate::specs::Reply::attempt_sched))]
fn attempt_sched(m: &Memory, cfg: Config, profile: Profile) -> Schedule
    ensures { result ≡ attempt_sched m.now cfg profile }
{
    if profile.messages == 3 {
        setup_sched(m, cfg)
    } else {
        params::first(cfg).sched
    }
}

// How long the attempt may take.
#[tactic(auto, unfolding(crate::specs::Reply::attempt_time))]
fn attempt_time(cfg: Config, profile: Profile) -> u64
    ensures { result ≡ attempt_time cfg profile }
{
    if profile.messages == 3 {
        cfg.handshake
    } else {
        params::budget(cfg)
    }
}

// The attempt that a start opens.
#[tactic(auto, unfolding(crate::specs::Reply::attempt_of))]
fn attempt(m: &Memory, cfg: Config, profile: Profile, time: u64, r: StartReply) -> Attempt
    ensures { result ≡ attempt_of m.now cfg profile time r }
{
    let sched = attempt_sched(m, cfg, profile);
    Attempt {
        hs: r.hs,
        out: r.msg,
        lease: r.lease,
        transport: r.transport,
        first: time,
        ladder: Ladder::new(time, sched),
        deadline: time::later(time, attempt_time(cfg, profile)),
        resent: false,
    }
}

// Whether the silence count rises: by a start by silence, while its interval is below the cap.
#[tactic(auto, unfolding(crate::specs::Reply::raises_silence))]
fn raises(m: &Memory, cfg: Config, kind: Option<Start>) -> bool
    ensures { result ≡ raises_silence m.now cfg (kind_given kind) }
{
    kind == Some(Start::Silence) && start::silence_interval(m, &cfg) < cfg.after
}

#[tactic(auto, using(time::proofs::Std::std_words), unfolding(crate::specs::Reply::silence_after))]
fn silence_after(m: &Memory, cfg: Config, kind: Option<Start>) -> u8
    ensures { result ≡ silence_after m.now cfg (kind_given kind) }
{
    if raises(m, cfg, kind) {
        m.silence.saturating_add(1)
    } else {
        m.silence
    }
}

// What an opened attempt leaves of the memory: no repair is due.
#[tactic(auto, unfolding(crate::specs::Reply::memory_after))]
fn memory_after(m: Memory, cfg: Config, kind: Option<Start>) -> Memory
    ensures { result ≡ memory_after m cfg (kind_given kind) }
{
    Memory {
        due: false,
        silence: silence_after(&m, cfg, kind),
        ..m
    }
}

// The state with the attempt in progress.
#[tactic(auto, unfolding(crate::specs::Reply::started_of))]
fn started(mut s: State, cfg: Config, profile: Profile, time: u64, r: StartReply) -> State
    ensures { result ≡ started_of s cfg profile time r }
{
    let kind = start::kind(&s, &cfg, profile, time);
    s.cycle.kind = Stage::Init.number();
    s.cycle.init = attempt(&s.mem, cfg, profile, time, r);
    s.mem = memory_after(s.mem, cfg, kind);
    s
}

// A start that opened nothing leaves the state.
#[tactic(auto, unfolding(crate::specs::Reply::taken_of))]
fn taken(s: State, cfg: Config, profile: Profile, time: u64, r: StartReply) -> State
    ensures { result ≡ taken_of s cfg profile time r }
{
    if r.opened {
        started(s, cfg, profile, time, r)
    } else {
        s
    }
}

// 1 to 6, then 10.
fn send_back(s: &State, cfg: Config, profile: Profile, time: u64) -> Result<(), Refusal>
    ensures { refused_of result ≡ reply_refused s.now cfg profile time }
{
    refusal::before_link(s, cfg, profile)?;
    if !start::called_for(s, &cfg, profile, time) {
        return Err(Refusal::NoStart);
    }
    Ok(())
}

// A start reply. It has no event; a refused call hands back the state that it was given.
pub fn reply(s: State, cfg: Config, profile: Profile, time: u64, r: StartReply) -> Answer
    ensures reply { Answers (reply_of s cfg profile time r) result [] [] }
    ensures exact { ReplyExact s cfg profile time (reply_of s cfg profile time r) }
{
    if let Err(back) = send_back(&s, cfg, profile, time) {
        return answer::sent_back(back, s);
    }
    answer::finish(taken(s, cfg, profile, time, r), 0, 0)
}
