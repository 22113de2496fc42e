// What is read of a link: its wake (`next_wake` of machine.rs) and the link line. The arguments of both are those of C's
// calls, one each.
#![tactic(auto)]

ghost use Rattle.std.specs.Prelude.{◌≡◌};
ghost use Rattle.call_read.specs.Read.{woke_of, kind_shown, quiet_time, status_of};
ghost use Rattle.call_read.specs.Exact.{WakeExact, StatusExact};

use cycle::Cycle;
use settings::Config;
use state::{Profile, State};
use time::When;

// What `wake` answers. Both records cross to C, so the refusal is a number and the kind too.
#[repr(C)]
#[derive(Clone, Copy)]
pub struct Woke {
    pub number: u8,
    pub place: u8,
    pub at: When,
}

// The link line: current tag, cycle kind, wake and quiet time. Quiet is the time since the current
// epoch was heard or started, whichever is later; frames under the drained epoch do not count.
#[repr(C)]
#[derive(Clone, Copy)]
pub struct Shown {
    pub number: u8,
    pub place: u8,
    pub tag: When,
    pub kind: u8,
    pub wake: When,
    pub quiet: When,
}

// The wake: the least instant that a stored deadline, a ladder or a start condition names, or none. It
// may come before there is anything to do. Refusals 1 to 6.
#[tactic(auto, using(crate::proofs::Exact::wake_exact), unfolding(crate::specs::Read::woke_of))]
pub fn wake(s: State, cfg: Config, p: Profile) -> Woke
    ensures wake { result ≡ woke_of s cfg p }
    ensures exact { WakeExact s cfg p (woke_of s cfg p) }
{
    if let Err(back) = refusal::before_link(&s, cfg, p) {
        return Woke {
            number: back.number(),
            place: back.place(),
            at: When::NONE,
        };
    }
    let at = wake::next_wake(&s, &cfg, p);
    Woke {
        number: 0,
        place: 0,
        at: at.into(),
    }
}

// The number of the kind. A number that is none of the list counts as Idle, and is shown as it.
#[tactic(auto, unfolding(crate::specs::Read::kind_shown))]
fn kind_shown(c: &Cycle) -> u8
    ensures { result ≡ kind_shown c.now.kind }
{
    c.stage().number()
}

// The time since the current epoch was heard or started, whichever is later, where there is one.
#[tactic(auto, unfolding(crate::specs::Read::quiet_time))]
fn quiet_time(s: &State, time: u64) -> When
    ensures { result ≡ quiet_time s.now time }
{
    let from = start::latest(s.mem.rx_cur, s.cur.ep.started);
    s.cur.some.then_some(time.saturating_sub(from)).into()
}

// The link line. Refusals 1 to 6.
#[tactic(auto, using(crate::proofs::Exact::status_exact), unfolding(crate::specs::Read::status_of))]
pub fn status(s: State, cfg: Config, p: Profile, time: u64) -> Shown
    ensures status { result ≡ status_of s cfg p time }
    ensures exact { StatusExact s cfg p time (status_of s cfg p time) }
{
    if let Err(back) = refusal::before_link(&s, cfg, p) {
        return Shown {
            number: back.number(),
            place: back.place(),
            tag: When::NONE,
            kind: numbers::cycle::IDLE,
            wake: When::NONE,
            quiet: When::NONE,
        };
    }
    let next = wake::next_wake(&s, &cfg, p);
    Shown {
        number: 0,
        place: 0,
        tag: s.cur.tag().into(),
        kind: kind_shown(&s.cycle),
        wake: next.into(),
        quiet: quiet_time(&s, time),
    }
}
