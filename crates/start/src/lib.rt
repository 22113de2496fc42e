// When an own rekey starts, and the earliest instant at which one can (machine.rs: `trigger_at`,
// `silence_interval`, `silence_at`, `start_kind` and `start_at`).
#![tactic(auto)]

ghost use Rattle.std.specs.Prelude.{◌≡◌, ◌-◌};
ghost use Rattle.time.specs.Options.{when_of};
ghost use Rattle.start.specs.Start.{trigger_of, silence_interval, latest_of, ahead as ahead_of, aged as aged_of, latest_in, trigger_at, silence_at, floors_passed, floor_ends, damped_now, backed_now, triggered_now, scheduled_now, silent_now, kind_of, kind_given, scheduled_after, at_of, may_start, start_kind, start_at, called_for};

use numbers::cycle::Stage;
use numbers::start::Start;
use settings::Config;
use state::{Memory, Profile, State};
use time::When;

// The time from an epoch's start to its time trigger: `after` moved by the jitter, in whole
// seconds. The jitter is split by its sign, as document 01 names it.
pub fn trigger(after: u64, jitter: i32) -> u64
    ensures { result ≡ trigger_of after jitter }
{
    let seconds = jitter.unsigned_abs() as u64;
    if jitter < 0 {
        after.saturating_sub(seconds * 1000)
    } else {
        after.saturating_add(seconds * 1000)
    }
}

// The silence interval now: doubled for each count, at most the time trigger.
#[tactic(auto, unfolding(crate::specs::Start::silence_interval))]
pub fn silence_interval(mem: &Memory, cfg: &Config) -> u64
    ensures { result ≡ silence_interval mem.now cfg.now }
{
    time::backoff(mem.silence as u32, cfg.silence, cfg.after)
}

// The later of an instant that may be absent and one that is there. The instants of the state are `When`s, which
// cross to C.
#[tactic(auto, using(time::proofs::Std::std_words), unfolding(crate::specs::Start::latest_of))]
pub fn latest(w: When, t: u64) -> u64
    ensures { result ≡ latest_of w t }
{
    if w.some { w.at.max(t) } else { t }
}

// Whether an instant that may be absent is there and still ahead.
fn ahead(w: When, now: u64) -> bool
    ensures { result ≡ ahead_of w now }
{
    w.some && now < w.at
}

// Whether an instant is at least `floor` ago, or absent.
fn aged(w: When, floor: u64, now: u64) -> bool
    ensures { result ≡ aged_of w floor now }
{
    !w.some || floor <= time::since(now, w.at)
}

// What an own rekey goes by: the memory, the settings, and of the current epoch its start and its
// sent count, all that the definitions take of it.
#[derive(Clone, Copy)]
pub struct Rekey<'a> {
    pub mem: &'a Memory,
    pub cfg: &'a Config,
    pub started: u64,
    pub sent: u64,
}

impl<'a> Rekey<'a> {
    // What a rekey of the current epoch goes by.
    fn of(s: &'a State, cfg: &'a Config) -> Rekey<'a>
        ensures mem { result.mem.now ≡ s.now.mem }
        ensures cfg { result.cfg.now ≡ cfg.now }
        ensures started { result.started ≡ s.now.cur.ep.started }
        ensures sent { result.sent ≡ s.now.cur.ep.sent }
    {
        Rekey {
            mem: &s.mem,
            cfg,
            started: s.cur.ep.started,
            sent: s.cur.ep.sent,
        }
    }

    // The instant of the time trigger.
    #[tactic(auto, unfolding(crate::specs::Start::trigger_at))]
    fn trigger_at(&self) -> u64
        ensures { result ≡ trigger_at self.now.mem.now self.now.cfg.now self.now.started }
    {
        time::later(self.started, trigger(self.cfg.after, self.mem.jitter))
    }

    // The instant of the silence trigger.
    #[tactic(auto, unfolding(crate::specs::Start::silence_at))]
    fn silence_at(&self) -> u64
        ensures { result ≡ silence_at self.now.mem.now self.now.cfg.now self.now.started }
    {
        let interval = silence_interval(self.mem, self.cfg);
        time::later(latest(self.mem.rx_cur, self.started), interval)
    }

    // Whether the link, the current epoch and the last cutover are old enough for an own rekey.
    #[tactic(auto, unfolding(crate::specs::Start::floors_passed))]
    pub fn floors(&self, now: u64) -> bool
        ensures { result ≡ floors_passed self.now.mem.now self.now.cfg.now self.now.started now }
    {
        self.cfg.floor_link <= time::since(now, self.mem.link_since)
            && self.cfg.floor_session <= time::since(now, self.started)
            && aged(self.mem.last_cutover, self.cfg.floor_cutover, now)
    }

    // Whether dampening holds a start back; a met soft limit passes it.
    #[tactic(auto, unfolding(crate::specs::Start::damped_now))]
    fn damped(&self, now: u64) -> bool
        ensures { result ≡ damped_now self.now.mem.now self.now.cfg.now self.now.sent now }
    {
        self.sent < self.cfg.soft && ahead(self.mem.damp, now)
    }

    // Whether the backoff after abandoned attempts holds a start back; a met soft limit and a repair
    // pass it.
    #[tactic(auto, unfolding(crate::specs::Start::backed_now))]
    fn backed(&self, repair: bool, now: u64) -> bool
        ensures { result ≡ backed_now self.now.mem.now self.now.cfg.now self.now.sent repair now }
    {
        self.sent < self.cfg.soft && !repair && ahead(self.mem.backoff, now)
    }

    // Whether a limit of the sent count, a repair or the time calls for a start.
    #[tactic(auto, unfolding(crate::specs::Start::triggered_now))]
    fn triggered(&self, now: u64) -> bool
        ensures { result ≡ triggered_now self.now.mem.now self.now.cfg.now self.now.started self.now.sent now }
    {
        self.mem.due
            || self.cfg.soft <= self.sent
            || self.cfg.messages <= self.sent
            || self.trigger_at() <= now
    }

    // Whether data was sent and nothing was heard for the silence interval.
    #[tactic(auto, unfolding(crate::specs::Start::silent_now))]
    fn silent(&self, now: u64) -> bool
        ensures { result ≡ silent_now self.now.mem.now self.now.cfg.now self.now.started self.now.sent now }
    {
        self.mem.sent_data && self.silence_at() <= now && !self.backed(false, now)
    }

    // Whether a start is due that is no start by silence.
    #[tactic(auto, unfolding(crate::specs::Start::scheduled_now))]
    fn scheduled(&self, now: u64) -> bool
        ensures { result ≡ scheduled_now self.now.mem.now self.now.cfg.now self.now.started self.now.sent now }
    {
        self.triggered(now) && !self.backed(self.mem.due, now)
    }

    // Why an own rekey starts at `now`, where nothing else stands against one.
    #[tactic(auto, unfolding(crate::specs::Start::kind_of))]
    pub fn kind(&self, silence: bool, now: u64) -> Option<Start>
        ensures { kind_given result ≡ kind_of self.now.mem.now self.now.cfg.now self.now.started self.now.sent silence now }
    {
        if !self.floors(now) || self.damped(now) {
            None
        } else if self.scheduled(now) {
            Some(Start::Scheduled)
        } else if silence && self.silent(now) {
            Some(Start::Silence)
        } else {
            None
        }
    }

    // The end of the last floor.
    fn gate(&self) -> u64
        ensures { result ≡ latest_in (floor_ends self.now.mem.now self.now.cfg.now self.now.started) }
    {
        let link = time::later(self.mem.link_since, self.cfg.floor_link);
        let session = time::later(self.started, self.cfg.floor_session);
        let both = link.max(session);
        if self.mem.last_cutover.some {
            let cutover = time::later(self.mem.last_cutover.at, self.cfg.floor_cutover);
            return cutover.max(both);
        }
        both
    }

    // The earliest scheduled start below the soft limit, from the ends of dampening and of the backoff.
    #[tactic(auto, using(time::proofs::Std::std_words), unfolding(crate::specs::Start::scheduled_after))]
    fn scheduled_at(&self, damped: u64, backed: u64) -> u64
        ensures { result ≡ scheduled_after self.now.mem.now self.now.cfg.now self.now.started self.now.sent damped backed }
    {
        if self.mem.due {
            damped
        } else if self.cfg.messages <= self.sent {
            backed
        } else {
            self.trigger_at().max(backed)
        }
    }

    // The earliest instant at which a start condition can next hold, where nothing else stands against
    // a start.
    pub fn at(&self, silence: bool) -> u64
        ensures { result ≡ at_of self.now.mem.now self.now.cfg.now self.now.started self.now.sent silence }
    {
        let gate = self.gate();
        if self.cfg.soft <= self.sent {
            return gate;
        }
        let damped = latest(self.mem.damp, gate);
        let backed = latest(self.mem.backoff, damped);
        let scheduled = self.scheduled_at(damped, backed);
        if silence && self.mem.sent_data {
            let quiet = self.silence_at().max(backed);
            return scheduled.min(quiet);
        }
        scheduled
    }
}

// Whether nothing stands against a start: there is a current epoch that holds no final message, the
// cycle is idle and the peer can be reached.
#[tactic(auto, unfolding(crate::specs::Start::may_start))]
fn may_start(s: &State) -> bool
    ensures { result ≡ may_start s.now }
{
    s.cur.some && s.cycle.stage() == Stage::Idle && !s.cur.ep.fin.some && s.mem.reachable
}

// Whether an own rekey starts at `now`, and why. Settings and profile stand one by one, as C hands them over.
#[tactic(auto, unfolding(crate::specs::Start::start_kind))]
pub fn kind(s: &State, cfg: &Config, p: Profile, now: u64) -> Option<Start>
    ensures { kind_given result ≡ start_kind s.now cfg.now p now }
{
    if may_start(s) {
        let rekey = Rekey::of(s, cfg);
        rekey.kind(p.silence, now)
    } else {
        None
    }
}

// The earliest instant at which a start condition can next hold.
#[tactic(auto, unfolding(crate::specs::Start::start_at))]
pub fn at(s: &State, cfg: &Config, p: Profile) -> Option<u64>
    ensures { when_of result ≡ start_at s.now cfg.now p }
{
    if may_start(s) {
        let rekey = Rekey::of(s, cfg);
        Some(rekey.at(p.silence))
    } else {
        None
    }
}

// Whether a start is called for.
#[tactic(auto, unfolding(crate::specs::Start::called_for))]
pub fn called_for(s: &State, cfg: &Config, p: Profile, now: u64) -> bool
    ensures { result ≡ called_for s.now cfg.now p now }
{
    kind(s, cfg, p, now).is_some() && s.cur.ep.sent < cfg.hard
}
