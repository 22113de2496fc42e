// Bytes and numbers put into a lent buffer. `put` and `put_number` take a buffer and a place; `Output`, which
// holds both, stands on them.
ghost use Rattle.std.specs.Prelude.{◌≡◌, ◌+◌, leb};
ghost use Rattle.text_lines.specs.Outputs.{written, written_to, held, held_to, decimal_of, spaced, spaced_to, spaced_or, spaced_or_to};

// Copies `s` into `out` from index `at` on, as far as `out` reaches, and answers the index after
// what was copied.
#[tactic(auto, unfolding(crate::specs::Outputs::written, crate::specs::Outputs::written_to))]
pub fn put(out: &mut [u8], at: usize, s: &[u8]) -> usize
    ensures { (result ≡ written_to out.old at s.now) × (out.new ≡ written out.old at s.now) }
{
    let n = s.len().min(out.len().saturating_sub(at));
    if 0 < n {
        out[at..at + n].copy_from_slice(&s[..n]);
    }
    at + n
}

// Puts the decimal digits of `n` as `put` puts bytes.
pub fn put_number(out: &mut [u8], at: usize, n: u64) -> usize
    ensures { (result ≡ written_to out.old at (decimal_of n)) × (out.new ≡ written out.old at (decimal_of n)) }
{
    put(out, at, digits(n, &mut [0; 20]))
}

// The decimal digits of `n`.
fn digits(n: u64, room: &mut [u8; 20]) -> &[u8]
    ensures { result.now ≡ decimal_of n }
{
    let k = io::decimal(n, room);
    &room[..k]
}

// What is to be written out: a lent buffer, which holds it up to `at`, and whether a write has
// failed. std's writers answer each write by a Result; here a program asks once a line.
#[derive(Drop)]
pub struct Output<'r, 'b, R> {
    pub rt: &'r R,
    pub buffer: &'b mut [u8],
    pub at: usize,
    pub failed: bool,
}

impl<'r, 'b, R: Print> Output<'r, 'b, R> {
    pub fn new(rt: &'r R, buffer: &'b mut [u8]) -> Output<'r, 'b, R>
        ensures same_reference { result.buffer.ghost_name ≡ buffer.entry.ghost_name }
        ensures buffer { result.buffer.now ≡ buffer.old }
        ensures at { result.at ≡ 0 }
    {
        Output {
            rt,
            buffer,
            at: 0,
            failed: false,
        }
    }

    // Writes out what the buffer holds, and answers whether all was written so far. After a write
    // that failed nothing more is written.
    pub fn flush(&mut self) -> bool
        ensures same_reference { self.new.buffer.ghost_name ≡ self.old.buffer.ghost_name }
        ensures buffer { self.new.buffer.now ≡ self.old.buffer.now }
        ensures at { self.new.at ≡ 0 }
    {
        let at = self.at;
        let buffer = &mut *self.buffer;
        let failed = self.failed || fails(self.rt, buffer, at);
        self.failed = failed;
        self.at = 0;
        !failed
    }

    // Puts `s` behind what the buffer holds. Where it does not fit the buffer is written out first,
    // and so is `s` where it is longer than the buffer.
    #[tactic(auto, using(crate::proofs::Laws::held_laws))]
    pub fn bytes(&mut self, s: &[u8])
        ensures same_reference { self.new.buffer.ghost_name ≡ self.old.buffer.ghost_name }
        ensures buffer { self.new.buffer.now ≡ held self.old.buffer.now self.old.at s.now }
        ensures at { self.new.at ≡ held_to self.old.buffer.now self.old.at s.now }
    {
        let at = self.at;
        if fits(s.len(), at, self.buffer.len()) {
            self.at = put(self.buffer, at, s);
            return;
        }
        self.flush();
        if s.len() <= self.buffer.len() {
            self.at = put(self.buffer, 0, s);
        } else if !self.failed {
            self.failed = fails(self.rt, s, s.len());
        }
    }

    // Puts the decimal digits of `n` in the same way.
    pub fn number(&mut self, n: u64)
        ensures same_reference { self.new.buffer.ghost_name ≡ self.old.buffer.ghost_name }
        ensures buffer { self.new.buffer.now ≡ held self.old.buffer.now self.old.at (decimal_of n) }
        ensures at { self.new.at ≡ held_to self.old.buffer.now self.old.at (decimal_of n) }
    {
        self.bytes(digits(n, &mut [0; 20]));
    }

    // Puts a space and then the decimal digits of `n`.
    pub fn spaced(&mut self, n: u64)
        ensures same_reference { self.new.buffer.ghost_name ≡ self.old.buffer.ghost_name }
        ensures buffer { self.new.buffer.now ≡ spaced self.old.buffer.now self.old.at n }
        ensures at { self.new.at ≡ spaced_to self.old.buffer.now self.old.at n }
    {
        self.bytes(b" ");
        self.number(n);
    }

    // Puts a number that is there as `spaced` does, and else `none`.
    pub fn spaced_or(&mut self, n: Option<u64>, none: &[u8])
        ensures same_reference { self.new.buffer.ghost_name ≡ self.old.buffer.ghost_name }
        ensures buffer { self.new.buffer.now ≡ spaced_or self.old.buffer.now self.old.at n none.now }
        ensures at { self.new.at ≡ spaced_or_to self.old.buffer.now self.old.at n none.now }
    {
        match n {
            Some(n) => self.spaced(n),
            None => self.bytes(none),
        }
    }
}

#[tactic(auto, using(crate::proofs::Laws::fits_laws))]
fn fits(n: usize, at: usize, len: usize) -> bool
    ensures { result ≡ leb (at + n) len }
{
    at <= len && n <= len - at
}

// Whether the bytes of `s` before `end` cannot be written.
fn fails(rt: &impl Print, s: &[u8], end: usize) -> bool {
    s.len() < end || rt.write_all(&s[..end]).is_err()
}
