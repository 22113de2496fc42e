// Candidates: peer-started attempts, oldest first (candidates.rs).
//
// One array to a field, with a flag beside what may be absent, since C has it so in the state. A removal then moves
// numbers and copies no record. Places from `len` on are no part of the state.
#![tactic(auto)]

ghost use Rattle.std.specs.Prelude.{◌≡◌, [], ◌+◌, ◌≤◌, ◌<◌, length, unwrap_or, eqb, IfSome};
ghost use Rattle.std.specs.List.{position};
ghost use Rattle.time.specs.Lists.{kept};
ghost use Rattle.candidates.specs.Held.{held_of, between, firsts, held_by, without, expired_in, born_after, earliest_of, place_of, spot_of, chosen, others, choosing, removed_of, younger, kept_after, cleared_of, expire_of};
ghost use Rattle.candidates.specs.Repeats.{repeated, rises};
ghost use Rattle.std.specs.Fn.{FnOnceReturnsAtMut};
ghost use Rattle.time.specs.Options.{when_of};
ghost use Rattle.candidates.specs.Changes.{Changes};

#[repr(C)]
#[derive(Clone, Copy)]
pub struct Candidates {
    pub hs: [u64; 32],
    pub msg1: [u64; 32],
    pub ack: [u64; 32],
    pub carrier: [u64; 32],
    pub route: [u64; 32],
    pub born: [u64; 32],
    pub deadline: [u64; 32],
    // Whether the candidate is bound to a peer epoch: 0 where it is not, else it is.
    pub bounded: [u64; 32],
    // The peer epoch that it is bound to, eight bytes as one number, low byte first.
    pub bound: [u64; 32],
    // The order of arrival.
    pub seq: [u64; 32],
    pub len: usize,
    // The next arrival number.
    pub next: u64,
}

// What stands after place `i`, up to `n`, moves down by one; how many are left.
fn drop_at(a: &mut [u64; 32], i: usize, n: usize) -> usize
    requires { (i < n) × (n ≤ 32) × (length a.old ≡ 32) }
    ensures { (result ≡ length (others i n)) × (a.new ≡ chosen (others i n) a.old) }
{
    a.copy_within(i + 1..n, i);
    n - 1
}

// What stands below `n`, where the birth at its place is after `t`, moves to the front; how many. A slice has no `retain`.
fn pack(a: &mut [u64; 32], born: &[u64; 32], n: usize, t: u64) -> usize
    requires { (n ≤ 32) × (length a.old ≡ 32) }
    ensures { (result ≡ length (younger t n born.now)) × (a.new ≡ chosen (younger t n born.now) a.old) }
{
    let mut w = 0;
    for i in 0..n {
        if t < born[i] {
            a[w] = a[i];
            w += 1;
        }
    }
    w
}

// Where `x` first stands.
fn find(a: &[u64], x: u64) -> Option<usize>
    ensures { result ≡ position (λ y. eqb y x) a.now }
{
    a.iter().position(|y| *y == x)
}

// The least of the numbers, absent where there is none.
fn least(a: &[u64]) -> Option<u64>
    ensures { when_of result ≡ earliest_of a.now }
{
    a.iter().copied().min()
}

// Whether each number is above the one before it.
fn rising(a: &[u64]) -> bool
    ensures { result ≡ rises a.now }
{
    a.is_sorted_by(|x, y| x < y)
}

// Whether two numbers are equal, each compared with all after it.
fn pairs(a: &[u64]) -> bool
    ensures { result ≡ repeated a.now }
{
    let mut rest = a;
    while let Some((x, after)) = rest.split_first() {
        if after.contains(x) {
            return true;
        }
        rest = after;
    }
    false
}

impl Candidates {
    pub const NONE: Candidates = Candidates {
        hs: [0; 32],
        msg1: [0; 32],
        ack: [0; 32],
        carrier: [0; 32],
        route: [0; 32],
        born: [0; 32],
        deadline: [0; 32],
        bounded: [0; 32],
        bound: [0; 32],
        seq: [0; 32],
        len: 0,
        next: 0,
    };

    // How many are held, whatever the count claims: one above 32 is sent back before it is read.
    #[tactic(auto, using(time::proofs::Std::min_least), unfolding(crate::specs::Held::held_of))]
    fn held(&self) -> usize
        ensures value { result ≡ held_of self.now.len }
        ensures within { result ≤ 32 }
    {
        self.len.min(32)
    }

    // Where the candidate of that number stands.
    fn spot(&self, seq: u64) -> Option<usize>
        ensures place { unwrap_or result (held_of self.now.len) ≡ spot_of self.now seq }
        ensures within { IfSome result (λ i. (i < held_of self.now.len) × (i < 32)) }
    {
        find(&self.seq[..self.held()], seq)
    }

    // Whether two have the same arrival number. Numbers that rise, as they do unless a caller made
    // them otherwise, are told apart in one pass.
    pub fn repeats(&self) -> bool
        ensures { result ≡ repeated (firsts self.now.len self.now.seq) }
    {
        let seqs = &self.seq[..self.held()];
        !rising(seqs) && pairs(seqs)
    }

    // The least of the deadlines, absent where there is none.
    pub fn earliest(&self) -> Option<u64>
        ensures { when_of result ≡ earliest_of (firsts self.now.len self.now.deadline) }
    {
        least(&self.deadline[..self.held()])
    }

    // Each array of numbers changed by `f`, which answers how many places are left.
    fn each<F: Fn(&mut [u64; 32]) -> usize>(&mut self, f: F)
        requires { (a : _) → length a.now ≡ 32 → F.pre f a }
        ensures { Changes (λ a n b. FnOnceReturnsAtMut F.FnOnce f a n b) self.old self.new }
    {
        f(&mut self.hs);
        f(&mut self.msg1);
        f(&mut self.ack);
        f(&mut self.carrier);
        f(&mut self.route);
        f(&mut self.born);
        f(&mut self.deadline);
        f(&mut self.bounded);
        f(&mut self.bound);
        self.len = f(&mut self.seq);
    }

    // The one at place `i` goes, the others stay in order.
    fn drop_at(&mut self, i: usize)
        requires { i < held_of self.old.len }
        ensures { self.new ≡ choosing (others i (held_of self.old.len)) self.old }
    {
        let n = self.held();
        self.each(|a| drop_at(a, i, n));
    }

    // The candidate of that number goes, the others stay in order.
    pub fn remove(&mut self, seq: u64)
        ensures value { self.new ≡ removed_of self.old seq }
        ensures listed { held_by self.new ≡ without seq (held_by self.old) }
    {
        if let Some(i) = self.spot(seq) {
            self.drop_at(i);
        }
    }

    // Whether the candidate of that number has a deadline not after `now`.
    pub fn is_expired(&self, seq: u64, now: u64) -> bool
        ensures { result ≡ expired_in seq now (held_by self.now) }
    {
        match self.spot(seq) {
            Some(i) => self.deadline[i] <= now,
            None => false,
        }
    }

    // The candidate of that number goes where its deadline is not after `now`; whether it went.
    #[tactic(auto, unfolding(crate::specs::Held::expire_of))]
    pub fn expire(&mut self, seq: u64, now: u64) -> bool
        ensures left { self.new ≡ (expire_of self.old seq now).cands }
        ensures gone { result ≡ (expire_of self.old seq now).gone }
    {
        if !self.is_expired(seq, now) {
            return false;
        }
        self.remove(seq);
        true
    }

    // None is held any more.
    #[tactic(auto, unfolding(crate::specs::Held::cleared_of, crate::specs::Held::choosing, crate::specs::Held::chosen), using(crate::proofs::Laws::held_cleared))]
    pub fn clear(&mut self)
        ensures value { self.new ≡ cleared_of self.old }
        ensures listed { held_by self.new ≡ [] }
    {
        self.len = 0;
    }

    // Those born after `t` stay, in order.
    pub fn keep_born_after(&mut self, t: u64)
        ensures value { self.new ≡ kept_after self.old t }
        ensures listed { held_by self.new ≡ kept (born_after t) (held_by self.old) }
    {
        let n = self.held();
        let born = self.born;
        self.each(|a| pack(a, &born, n, t));
    }
}
