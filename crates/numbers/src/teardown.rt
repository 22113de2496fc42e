// Why a machine must be closed, and the number of each case: its place in `Teardown` (reason.rs).
ghost use Rattle.std.specs.Prelude.{◌≡◌};
ghost use Rattle.numbers.specs.Numbers.{teardowns};
ghost use Rattle.numbers.specs.Reason.{teardown_no};

// Why the shell must close the machine.
#[derive(Clone, Copy, PartialEq, Eq)]
pub enum Teardown {
    // A first handshake with no attempt and no candidate left.
    OpeningIdle,
    // A first handshake whose own attempt failed with no candidate left.
    OpeningFailed,
    // The current epoch's send counter reached its hard limit.
    CounterExhausted,
}

pub const OPENING_IDLE: u64 = 0;

pub const OPENING_FAILED: u64 = 1;

pub const COUNTER_EXHAUSTED: u64 = 2;

impl Teardown {
    // The place in the source's list, from 0.
    pub fn number(self) -> u64
        ensures { result ≡ teardown_no self }
    {
        match self {
            Teardown::OpeningIdle => OPENING_IDLE,
            Teardown::OpeningFailed => OPENING_FAILED,
            Teardown::CounterExhausted => COUNTER_EXHAUSTED,
        }
    }
}

// All of them, in order.
pub fn all() -> [u64; 3]
    ensures { result ≡ teardowns }
{
    [OPENING_IDLE, OPENING_FAILED, COUNTER_EXHAUSTED]
}
