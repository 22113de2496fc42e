// Resend ladders: integer backoff, rung accounting and deadline arithmetic (ladder.rs).
//
// A schedule is a short list of offsets from an origin. A ladder is a schedule anchored at an
// instant, with a cursor at the next rung. A late poll takes every overdue rung at once.
//
// `next_at`, `due` and `take` are the form that document 01 names for them: methods with self that hand
// back the ladder and the answer. `take_lent` is the one call on a ladder lent for change, over `take`.
#![tactic(auto)]

ghost use Rattle.std.specs.Prelude.{◌≡◌, ◌<◌, ◌≤◌, ◌+◌, ◌-◌, ◌^◌, leb, Some};
ghost use Rattle.time.specs.Pick.{pick};
ghost use Rattle.time.specs.Lists.{fold};
ghost use Rattle.time.specs.Options.{when_of};
ghost use Rattle.ladder.specs.Schedule.{max_rungs, doubled as doubled_of, made_of, doubling_of, probes_of, keepalives, rung_at, rungs_of, last_send_of, held_of};
ghost use Rattle.ladder.specs.Laws.{Fresh};
ghost use Rattle.ladder.specs.Fill.{lost_of, losing, put_of, putting, offered};
ghost use Rattle.ladder.specs.Ladder.{instant_of, next_at_of, due_of, taking, take_of, anew, moved_to};
ghost use Rattle.ladder.specs.Took.{took_of, so_far, count_of, sent_of};

// The most rungs a schedule holds.
pub const MAX_RUNGS: usize = 16;

// The same as a length and as a count. They have names since a cast in code is a step of its own.
pub const MAX_LEN: u8 = MAX_RUNGS as u8;

pub const MAX_COUNT: u64 = MAX_RUNGS as u64;

// Offsets from an origin, in milliseconds, and what each rung carries. An array with its length beside it, since C has it
// so in the state, and no heap is there.
#[repr(C)]
#[derive(Clone, Copy)]
pub struct Schedule {
    pub at: [u64; MAX_RUNGS],
    // Bit i is set where rung i is a keepalive and nothing else. The map is wider than the rungs
    // need, so that a longer schedule changes no type.
    pub keepalive: u64,
    pub len: u8,
}

// A schedule with the number of rungs that were asked for and are not in it, up to 255.
#[derive(Clone, Copy)]
pub struct Made {
    pub sched: Schedule,
    pub dropped: u8,
}

// A schedule anchored at an instant, with a cursor at the next rung.
#[repr(C)]
#[derive(Clone, Copy)]
pub struct Ladder {
    pub origin: u64,
    pub sched: Schedule,
    pub next: u8,
}

// What was taken from a ladder: some rung was due.
#[derive(Clone, Copy)]
pub struct Taken {
    // How many rungs were taken, keepalives too.
    pub taken: u64,
    // Some rung taken was no keepalive.
    pub send: bool,
    // The offset of the last rung taken.
    pub latest: u64,
    // No rung is left.
    pub last: bool,
}

// `n + k`, at most 255.
#[tactic(auto, using(time::proofs::Std::add_capped), unfolding(crate::specs::Fill::lost_of))]
fn lost(n: u8, k: u64) -> u8
    ensures { result ≡ lost_of n k }
{
    (n as u64).saturating_add(k).min(255) as u8
}

// The offset of resend `i` (from 0) of a doubling ladder whose first interval is `first`: `first`,
// `3 first`, `7 first` and so on, at most 2^64 - 1.
fn doubled(first: u64, i: u8) -> u64
    requires { 0 < first }
    ensures { result ≡ doubled_of first i }
{
    if i < 63 {
        let p: u64 = 1 << ((i + 1) as u64);
        first.saturating_mul(p - 1)
    } else {
        time::END
    }
}

// How many milliseconds lie strictly between two frames.
fn between(last: u64, next: u64) -> u64
    ensures { result ≡ next - last - 1 }
{
    next.saturating_sub(last).saturating_sub(1)
}

// The map's bit of rung `i`, or 0 for a rung that sends.
fn mark(i: u8, silent: bool) -> u64
    requires { i < 64 }
    ensures { result ≡ pick silent (2 ^ i) 0 }
{
    if silent { 1 << (i as u64) } else { 0 }
}

impl Made {
    // With `k` more dropped.
    #[tactic(auto, unfolding(crate::specs::Fill::losing))]
    fn lose(self, k: u64) -> Made
        ensures { result ≡ losing self k }
    {
        let dropped = lost(self.dropped, k);
        Made { dropped, ..self }
    }

    // One rung more, or one more dropped where the schedule is full. `Fresh` is asked here, in `offer` and in `fill`: as an
    // invariant it would need a view of `Made`, which is `Copy`, and the way back from it.
    fn put(self, at: u64, silent: bool) -> Made
        requires { Fresh self }
        ensures { result ≡ putting self at silent }
    {
        let mut sched = self.sched;
        let len = sched.len;
        if len < MAX_LEN {
            let bit = mark(len, silent);
            let i = len as usize;
            sched.at[i] = at;
            sched.keepalive = sched.keepalive + bit;
            sched.len = len + 1;
            Made { sched, ..self }
        } else {
            self.lose(1)
        }
    }

    // A resend at `at`, dropped unless it lies strictly before the end, if there is one.
    #[tactic(auto, unfolding(crate::specs::Fill::offered))]
    fn offer(self, at: u64, end: Option<u64>) -> Made
        requires { Fresh self }
        ensures { result ≡ offered max_rungs (when_of end) self at }
    {
        match end {
            Some(end) if end <= at => self.lose(1),
            _ => self.put(at, false),
        }
    }

    // Keepalives `gap` apart after `last`, while each is more than `gap` before `next`. Those past
    // the limit are counted, not visited: there may be 2^64 of them.
    fn fill(self, last: u64, next: u64, gap: u64) -> Made
        requires fresh { Fresh self }
        requires gap_nonzero { 0 < gap }
        ensures { result ≡ fold (put_of max_rungs) self (keepalives gap last next) }
    {
        let all = between(last, next) / gap;
        let room = MAX_COUNT.saturating_sub(self.sched.len as u64);
        let n = all.min(room);
        let mut made = self;
        for i in 0..n {
            made = made.put(last + (i + 1) * gap, true);
        }
        made.lose(all - n)
    }
}

impl Schedule {
    // No rungs.
    pub const EMPTY: Schedule = Schedule {
        at: [0; MAX_RUNGS],
        keepalive: 0,
        len: 0,
    };

    // The most rungs a schedule holds.
    pub const MAX_RUNGS: usize = MAX_RUNGS;

    // Up to `count` doubling resends with first interval `first`, keeping only those strictly
    // before `end` when an end is given.
    pub fn doubling(first: u64, count: u8, end: Option<u64>) -> Made
        ensures { result ≡ made_of max_rungs (doubling_of max_rungs first count (when_of end)) }
    {
        let f = first.max(1);
        let mut made = Made {
            sched: Schedule::EMPTY,
            dropped: 0,
        };
        for i in 0..count {
            made = made.offer(doubled(f, i), end);
        }
        made
    }

    // The resends of `doubling` before `end`, with keepalives wherever two consecutive frames (at
    // the origin, at each resend and at the end) would be more than `gap` apart.
    pub fn probes(first: u64, count: u8, end: u64, gap: u64) -> Made
        ensures { result ≡ made_of max_rungs (probes_of max_rungs first count end gap) }
    {
        let g = gap.max(1);
        let d = Schedule::doubling(first, count, Some(end));
        let sends = d.sched;
        let n = sends.rungs();
        let mut made = Made {
            sched: Schedule::EMPTY,
            dropped: d.dropped,
        };
        let mut last: u64 = 0;
        for at in &sends.at[..n] {
            made = made.fill(last, *at, g);
            made = made.put(*at, false);
            last = *at;
        }
        made.fill(last, end, g)
    }

    // How many rungs there are; a length that claims more than fit counts as the most that fit.
    #[tactic(auto, using(time::proofs::Std::min_least), unfolding(crate::specs::Schedule::held_of))]
    pub fn rungs(self) -> usize
        ensures value { result ≡ held_of max_rungs self }
        ensures within { result ≤ max_rungs }
    {
        (self.len as usize).min(MAX_RUNGS)
    }

    // Whether rung `i` is a keepalive and nothing else.
    fn silent(self, i: usize) -> bool
        requires { i < max_rungs }
        ensures { result ≡ (rung_at self i).silent }
    {
        (self.keepalive >> (i as u64)) % 2 == 1
    }

    // The offset of the last rung that sends, absent when none does.
    pub fn last_send(self) -> Option<u64>
        ensures { when_of result ≡ last_send_of (rungs_of max_rungs self) }
    {
        let n = self.rungs();
        let mut found = None;
        // By place: it names the rung's bit of the map as well as its offset.
        for i in 0..n {
            if !self.silent(i) {
                found = Some(self.at[i]);
            }
        }
        found
    }
}

// How many rungs were taken so far.
fn count(before: Option<Taken>) -> u64
    ensures { result ≡ count_of before }
{
    before.map_or(0, |t| t.taken)
}

// Whether one of them was no keepalive.
fn sent(before: Option<Taken>) -> bool
    ensures { result ≡ sent_of before }
{
    before.is_some_and(|t| t.send)
}

impl Ladder {
    // A ladder without rungs.
    pub const EMPTY: Ladder = Ladder {
        origin: 0,
        sched: Schedule::EMPTY,
        next: 0,
    };

    // A ladder whose first rung is the schedule's first offset after `origin`.
    pub fn new(origin: u64, sched: Schedule) -> Ladder
        ensures { result ≡ anew origin sched }
    {
        Ladder {
            origin,
            sched,
            next: 0,
        }
    }

    // The instant of rung `i`, absent past the last.
    #[tactic(auto, unfolding(crate::specs::Ladder::instant_of))]
    fn instant(self, i: u8) -> Option<u64>
        ensures { when_of result ≡ instant_of self i }
    {
        let k = i as usize;
        if k < self.sched.rungs() {
            Some(time::later(self.origin, self.sched.at[k]))
        } else {
            None
        }
    }

    // The instant of the next rung, absent when every rung is taken.
    #[tactic(auto, using(crate::proofs::Laws::next_instant))]
    pub fn next_at(self) -> (Ladder, Option<u64>)
        ensures { (result.0 ≡ self) × (when_of result.1 ≡ next_at_of self) }
    {
        (self, self.instant(self.next))
    }

    // Whether a rung is due at `now`.
    #[tactic(auto, unfolding(crate::specs::Ladder::due_of))]
    pub fn due(self, now: u64) -> (Ladder, bool)
        ensures { (result.0 ≡ self) × (result.1 ≡ due_of self now) }
    {
        let (ladder, at) = self.next_at();
        (ladder, at.is_some_and(|t| t <= now))
    }

    // Whether no rung is left; a length that claims more than fit has no last one.
    fn spent(&self) -> bool
        ensures { result ≡ leb self.now.sched.len self.now.next }
    {
        self.sched.len <= self.next
    }

    // One rung taken, after what was taken `before`.
    #[tactic(auto, unfolding(crate::specs::Ladder::taking, crate::specs::Schedule::rung_at))]
    fn step(&mut self, before: Option<Taken>) -> Taken
        requires rung { self.old.next < max_rungs }
        requires count { count_of before ≤ self.old.next }
        ensures moved { self.new ≡ moved_to self.old (self.old.next + 1) }
        ensures step { so_far self.new (Some result) ≡ taking (so_far self.old before) (rung_at self.old.sched self.old.next) }
        ensures count { result.taken ≡ count_of before + 1 }
        ensures last { result.last ≡ leb self.old.sched.len (self.old.next + 1) }
    {
        let i = self.next as usize;
        let sends = !self.sched.silent(i);
        let latest = self.sched.at[i];
        self.next += 1;
        Taken {
            taken: count(before) + 1,
            send: sends || sent(before),
            latest,
            last: self.spent(),
        }
    }

    // Every rung due at `now`; nothing where none is due.
    pub fn take(self, now: u64) -> (Ladder, Option<Taken>)
        ensures { took_of result.0 result.1 ≡ take_of self now }
    {
        let mut ladder = self;
        let mut so_far = None;
        while ladder.due(now).1 {
            so_far = Some(ladder.step(so_far));
        }
        (ladder, so_far)
    }

    // Takes every rung due at `now` from a ladder lent for change.
    #[tactic(auto, using(crate::proofs::Lent::lent_take))]
    pub fn take_lent(&mut self, now: u64) -> Option<Taken>
        ensures { took_of self.new result ≡ take_of self.old now }
    {
        let (moved, taken) = self.take(now);
        self.next = moved.next;
        taken
    }
}
