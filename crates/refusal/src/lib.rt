// Refusals: why a call is sent back, and what a call tests before it does anything (1 to 7). A state is
// read where it stands: no epoch is copied. Settings and profile stand one by one, as C hands them over.
#![tactic(auto)]

ghost use Rattle.std.specs.Prelude.{◌≡◌, ◌||◌, [], ◌∷◌, Err};
ghost use Rattle.numbers.specs.Numbers.{refused_draw};
ghost use Rattle.time.specs.Options.{when_of};
ghost use Rattle.candidates.specs.Repeats.{repeated};
ghost use Rattle.refusal.specs.Refused.{Refused, number_of, place_of, refused_of};
ghost use Rattle.refusal.specs.Refusal.{profile_bad, is_pending, epochs_bad, tags_of, numbers_bad, ladder_bad, ladders_bad, spread_bad, extra_bad, first, by, given_tests, before_open, before_poll, before_frame, before_link, before_told};
ghost use Rattle.refusal.specs.Standing.{pending_ep, shared_of, tags_bad, epoch_bad, held_bad, cycle_bad};

use cycle::Cycle;
use epoch::Epoch;
use ladder::{Ladder, MAX_LEN};
use numbers::cycle::Stage;
use settings::{Check, Config};
use state::{Profile, State};

// Why a call is sent back.
#[derive(Clone, Copy, PartialEq, Eq)]
pub enum Refusal {
    // The settings fail this check, the first that does in file order.
    Settings(Check),
    // A profile value lies outside its range.
    Profile,
    // The state holds more than 32 candidates.
    Candidates,
    // A pending or drained epoch stands without a current one.
    NoCurrent,
    // Two epochs share a tag, or two candidates a sequence number.
    Shared,
    // A ladder has more than MAX_RUNGS rungs, or stands past its last.
    Ladder,
    // A draw lies outside its range.
    Draw,
    // A frame names a slot that holds no epoch.
    Slot,
    // A frame's tag is not that epoch's tag.
    Tag,
    // A start reply comes while no start is called for, or the sent count has reached `hard`.
    NoStart,
    // A told sent count is below the held one.
    Sent,
}

impl Refusal {
    // The number that the call answers, from 1.
    pub fn number(self) -> u8
        ensures { result ≡ number_of self }
    {
        match self {
            Refusal::Settings(_) => numbers::refused::SETTINGS,
            Refusal::Profile => numbers::refused::PROFILE,
            Refusal::Candidates => numbers::refused::CANDIDATES,
            Refusal::NoCurrent => numbers::refused::NO_CURRENT,
            Refusal::Shared => numbers::refused::SHARED,
            Refusal::Ladder => numbers::refused::LADDER,
            Refusal::Draw => numbers::refused::DRAW,
            Refusal::Slot => numbers::refused::SLOT,
            Refusal::Tag => numbers::refused::TAG,
            Refusal::NoStart => numbers::refused::NO_START,
            Refusal::Sent => numbers::refused::SENT,
        }
    }

    // The place of the settings' check; 0 with every other number.
    pub fn place(self) -> u8
        ensures { result ≡ place_of self }
    {
        match self {
            Refusal::Settings(check) => check.place(),
            _ => 0,
        }
    }
}

// What a call may be sent back with: a refusal, or a number and the place of a check.
pub trait Back {
    // The number and the place.
    ghost back_of: { Self → Refused };

    // The number and the place.
    fn to_numbers(self) -> (u8, u8)
        ensures { record { number = result.0; place = result.1 } ≡ back_of self };
}

impl Back for Refusal {
    ghost back_of = { λ r. refused_of (Err r) };

    fn to_numbers(self) -> (u8, u8) {
        (self.number(), self.place())
    }
}

impl Back for (u8, u8) {
    ghost back_of = { λ n. record { number = n.0; place = n.1 } };

    fn to_numbers(self) -> (u8, u8) {
        self
    }
}

// 2: a profile value outside its range.
#[tactic(auto, unfolding(crate::specs::Refusal::profile_bad))]
pub fn profile_bad(p: Profile) -> bool
    ensures { result ≡ profile_bad p }
{
    64 < p.floor || !matches!(p.messages, 2 | 3)
}

// 6: a ladder with more than MAX_RUNGS rungs, or one that stands past its last.
#[tactic(auto, unfolding(crate::specs::Refusal::ladder_bad))]
pub fn ladder_bad(l: &Ladder) -> bool
    ensures { result ≡ ladder_bad l.now.sched.len l.now.next }
{
    MAX_LEN < l.sched.len || l.sched.len < l.next
}

// 7: a spread outside -j to j.
#[tactic(auto, unfolding(crate::specs::Refusal::spread_bad))]
pub fn spread_bad(j: u16, spread: i32) -> bool
    ensures { result ≡ spread_bad j spread }
{
    u32::from(j) < spread.unsigned_abs()
}

// 7: an extra above j.
#[tactic(auto, unfolding(crate::specs::Refusal::extra_bad))]
pub fn extra_bad(j: u16, extra: u32) -> bool
    ensures { result ≡ extra_bad j extra }
{
    u32::from(j) < extra
}

// 7: one of both draws outside its range.
pub fn draws_bad(j: u16, spread: i32, extra: u32) -> bool
    ensures { result ≡ (spread_bad j spread || extra_bad j extra) }
{
    spread_bad(j, spread) || extra_bad(j, extra)
}

// Whether the cycle has a pending epoch.
fn is_pending(c: &Cycle) -> bool
    ensures { result ≡ is_pending c.now.kind }
{
    c.pending().is_some()
}

// 4: a pending or drained epoch without a current one.
#[tactic(auto, unfolding(crate::specs::Refusal::epochs_bad_of))]
pub fn epochs_bad(s: &State) -> bool
    ensures { result ≡ epochs_bad s.now }
{
    !s.cur.some && (is_pending(&s.cycle) || s.drain.some)
}

// Whether both are there and equal.
#[tactic(auto, unfolding(crate::specs::Standing::shared_of))]
fn shared(a: Option<u64>, b: Option<u64>) -> bool
    ensures { result ≡ shared_of (when_of a) (when_of b) }
{
    a.is_some() && a == b
}

// 5: two of three tags that are there are equal.
#[tactic(auto, unfolding(crate::specs::Standing::tags_bad))]
fn tags_bad(a: Option<u64>, b: Option<u64>, c: Option<u64>) -> bool
    ensures { result ≡ tags_bad (when_of a) (when_of b) (when_of c) }
{
    shared(a, b) || shared(a, c) || shared(b, c)
}

// 5: two epochs share a tag.
pub fn tags_repeat(s: &State) -> bool
    ensures { result ≡ repeated (tags_of s.now) }
{
    tags_bad(s.cur.tag(), s.cycle.pending_tag(), s.drain.tag())
}

// 5: two epochs share a tag, or two candidates a sequence number.
#[tactic(auto, unfolding(crate::specs::Refusal::numbers_bad))]
fn numbers_bad(s: &State) -> bool
    ensures { result ≡ numbers_bad s.now }
{
    tags_repeat(s) || s.cands.repeats()
}

// 6: a ladder of an epoch is bad: the retained final message's, or the prompt repeats.
#[tactic(auto, unfolding(crate::specs::Standing::epoch_bad, crate::specs::Standing::either_bad, crate::specs::Standing::standing_bad))]
pub fn epoch_bad(e: &Epoch) -> bool
    ensures { result ≡ epoch_bad e.now }
{
    e.fin.some && ladder_bad(&e.fin.ladder) || e.elicit.some && ladder_bad(&e.elicit.ladder)
}

// 6: a ladder of the cycle itself is bad: an attempt's, or a completed attempt's final message and
// probes.
#[tactic(auto, unfolding(crate::specs::Standing::cycle_bad, crate::specs::Standing::either_bad, crate::specs::Standing::standing_bad))]
pub fn cycle_bad(c: &Cycle) -> bool
    ensures { result ≡ cycle_bad c.now }
{
    match c.stage() {
        Stage::Init => ladder_bad(&c.init.ladder),
        Stage::PendI => {
            let p = &c.pendi;
            p.fin.some && ladder_bad(&p.fin.ladder) || p.probes.some && ladder_bad(&p.probes.ladder)
        }
        Stage::Idle | Stage::PendR => false,
    }
}

// 6: a ladder of the pending epoch is bad.
pub fn pending_bad(c: &Cycle) -> bool
    ensures { result ≡ held_bad (is_pending c.now.kind) (pending_ep c.now) }
{
    c.pending().is_some_and(epoch_bad)
}

// 6: a ladder that stands is bad.
#[tactic(auto, using(crate::proofs::Standing::apart_words), unfolding(crate::specs::Standing::held_bad))]
fn ladders_bad(s: &State) -> bool
    ensures { result ≡ ladders_bad s.now }
{
    cycle_bad(&s.cycle)
        || s.cur.some && epoch_bad(&s.cur.ep)
        || pending_bad(&s.cycle)
        || s.drain.some && epoch_bad(&s.drain.ep)
}

// What a told sent count tests before its own 11: 3 to 6. The count is tried before any place is read.
#[tactic(auto, unfolding(crate::specs::Refusal::first, crate::specs::Refusal::state_tests))]
pub fn before_told(s: &State) -> Result<(), Refusal>
    ensures { refused_of result ≡ before_told s.now }
{
    if 32 < s.cands.len {
        return Err(Refusal::Candidates);
    }
    if epochs_bad(s) {
        return Err(Refusal::NoCurrent);
    }
    if numbers_bad(s) {
        return Err(Refusal::Shared);
    }
    if ladders_bad(s) {
        return Err(Refusal::Ladder);
    }
    Ok(())
}

// 1 and 2. The settings' check becomes a refusal here alone: a `From` for one place would be no shorter.
#[tactic(auto, using(crate::proofs::Settings::place_words), unfolding(crate::specs::Refusal::first, crate::specs::Refusal::given_tests))]
fn before_given(cfg: Config, p: Profile) -> Result<(), Refusal>
    ensures { refused_of result ≡ first (given_tests cfg p) }
{
    if let Err(check) = settings::accept(cfg) {
        return Err(Refusal::Settings(check));
    }
    if profile_bad(p) {
        return Err(Refusal::Profile);
    }
    Ok(())
}

// 7, where a draw lies outside its range.
#[tactic(auto, unfolding(crate::specs::Refusal::first))]
fn draw(bad: bool) -> Result<(), Refusal>
    ensures { refused_of result ≡ first (by refused_draw bad ∷ []) }
{
    if bad { Err(Refusal::Draw) } else { Ok(()) }
}

// What `open` tests: 1, 2, 7.
pub fn before_open(cfg: Config, p: Profile, spread: i32) -> Result<(), Refusal>
    ensures { refused_of result ≡ before_open cfg p spread }
{
    before_given(cfg, p)?;
    draw(spread_bad(cfg.jitter, spread))
}

// What a start reply tests before its own 10, and what wake and status test: 1 to 6.
pub fn before_link(s: &State, cfg: Config, p: Profile) -> Result<(), Refusal>
    ensures { refused_of result ≡ before_link s.now cfg p }
{
    before_given(cfg, p)?;
    before_told(s)
}

// What a notice tests, and a frame before its own 8 and 9: 1 to 7, with the spread alone.
pub fn before_frame(s: &State, cfg: Config, p: Profile, spread: i32) -> Result<(), Refusal>
    ensures { refused_of result ≡ before_frame s.now cfg p spread }
{
    before_link(s, cfg, p)?;
    draw(spread_bad(cfg.jitter, spread))
}

// What a poll tests: 1 to 7, with both draws.
pub fn before_poll(
    s: &State,
    cfg: Config,
    p: Profile,
    spread: i32,
    extra: u32,
) -> Result<(), Refusal>
    ensures { refused_of result ≡ before_poll s.now cfg p spread extra }
{
    before_link(s, cfg, p)?;
    draw(draws_bad(cfg.jitter, spread, extra))
}
