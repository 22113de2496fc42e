// What a completed own attempt waits for; a state with any other number counts as `DELAY`: places in `Wait` (cycle.rs).
ghost use Rattle.std.specs.Prelude.{◌≡◌, eqb};
ghost use Rattle.numbers.specs.Numbers.{waits, wait_held, wait_evidence};
ghost use Rattle.numbers.specs.Cases.{wait_no, at_held, at_evidence};

// What a completed own attempt waits for.
#[derive(Clone, Copy, PartialEq, Eq)]
pub enum Wait {
    // Nothing: the next poll cuts over.
    Held,
    // A frame of the peer under the new epoch, or the confirmation deadline.
    Evidence,
    // A fixed delay.
    Delay,
}

pub const HELD: u8 = 0;

pub const EVIDENCE: u8 = 1;

pub const DELAY: u8 = 2;

impl Wait {
    // The place in the source's list, from 0.
    pub fn number(self) -> u8
        ensures { result ≡ wait_no self }
    {
        match self {
            Wait::Held => HELD,
            Wait::Evidence => EVIDENCE,
            Wait::Delay => DELAY,
        }
    }
}

// The wait that a state's number stands for.
impl From<u8> for Wait {
    fn from(wait: u8) -> Wait
        ensures held { eqb wait wait_held ≡ at_held result }
        ensures evidence { eqb wait wait_evidence ≡ at_evidence result }
    {
        match wait {
            HELD => Wait::Held,
            EVIDENCE => Wait::Evidence,
            _ => Wait::Delay,
        }
    }
}

// All of them, in order.
pub fn all() -> [u8; 3]
    ensures { result ≡ waits }
{
    [HELD, EVIDENCE, DELAY]
}
