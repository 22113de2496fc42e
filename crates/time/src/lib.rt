// Time: instants and durations are whole milliseconds in 64 unsigned bits.
//
// Ported from core/src/time/mod.rs (`backoff`), ladder.rs (`later`) and machine.rs (`since`).
#![tactic(auto)]

ghost use Rattle.std.specs.Prelude.{◌≡◌, ◌-◌};
ghost use Rattle.time.specs.Options.{when_of, option_of};
ghost use Rattle.time.specs.Time.{at as at_of, later_of, later_by_of, factor_of, backoff_of, reached_of, sooner_of};

// A number that may be absent: an instant, a duration or a number of the caller. It stays beside `Option` since C has
// it in the state and in calls.
#[repr(C)]
#[derive(Clone, Copy)]
pub struct When {
    pub some: bool,
    pub at: u64,
}

// The last instant of the clock, and the longest duration.
pub const END: u64 = 18446744073709551615;

// `t + d`, or `t` itself past the end of the clock's range: at the end of the range a deadline
// falls due at once.
#[tactic(auto, using(crate::proofs::Std::sum_or), unfolding(crate::specs::Time::later_of))]
pub fn later(t: u64, d: u64) -> u64
    ensures { result ≡ later_of t d }
{
    t.checked_add(d).unwrap_or(t)
}

// Time from `t` to `now`, 0 if `t` is later. It stays beside std's method since its name says what the difference is.
pub fn since(now: u64, t: u64) -> u64
    ensures { result ≡ now - t }
{
    now.saturating_sub(t)
}

// The doubling factor, which stops at 2^32 - 1.
pub fn factor(exponent: u32) -> u64
    ensures { result ≡ factor_of exponent }
{
    if exponent < 32 {
        1 << (exponent as u64)
    } else {
        4294967295
    }
}

// `base` doubled `exponent` times, at most `cap`.
#[tactic(auto, using(crate::proofs::Std::mul_capped), unfolding(crate::specs::Time::backoff_of))]
pub fn backoff(exponent: u32, base: u64, cap: u64) -> u64
    ensures { result ≡ backoff_of exponent base cap }
{
    base.saturating_mul(factor(exponent)).min(cap)
}

// `later` by a duration that may not fit.
#[tactic(auto, unfolding(crate::specs::Time::later_by_of))]
pub fn later_by(t: u64, d: Option<u64>) -> u64
    ensures { result ≡ later_by_of t (when_of d) }
{
    d.map_or(t, |d| later(t, d))
}

// The earlier of two instants, where both are there.
#[tactic(auto, using(crate::proofs::Std::min_least), unfolding(crate::specs::Time::sooner_of))]
pub fn sooner(a: Option<u64>, b: Option<u64>) -> Option<u64>
    ensures { when_of result ≡ sooner_of (when_of a) (when_of b) }
{
    match (a, b) {
        (Some(x), Some(y)) => Some(x.min(y)),
        (Some(_), None) => a,
        (None, _) => b,
    }
}

impl When {
    pub const NONE: When = When { some: false, at: 0 };

    // One that is there.
    pub const fn of(at: u64) -> When
        ensures { result ≡ at_of at }
    {
        When { some: true, at }
    }

    // As an option.
    pub fn get(self) -> Option<u64>
        ensures { result ≡ option_of self }
    {
        if self.some { Some(self.at) } else { None }
    }

    // Whether it is there and not after `now`.
    pub fn reached(self, now: u64) -> bool
        ensures { result ≡ reached_of self now }
    {
        self.some && self.at <= now
    }

    // The earlier of two, where both are there; where the first is absent, the second as it stands.
    #[tactic(auto, unfolding(crate::specs::Time::sooner_of))]
    pub fn sooner(self, other: When) -> When
        ensures { result ≡ sooner_of self other }
    {
        if self.some && (!other.some || self.at <= other.at) {
            self
        } else {
            other
        }
    }
}

impl From<Option<u64>> for When {
    ghost from_gives = { λ w t. t ≡ when_of w };

    fn from(w: Option<u64>) -> When {
        w.map_or(When::NONE, When::of)
    }
}
