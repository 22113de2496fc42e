// What starts an own rekey: places in `Start` (machine.rs).
ghost use Rattle.std.specs.Prelude.{◌≡◌};
ghost use Rattle.numbers.specs.Numbers.{starts};
ghost use Rattle.numbers.specs.Cases.{start_no};

// What starts an own rekey.
#[derive(Clone, Copy, PartialEq, Eq)]
pub enum Start {
    // The time or message trigger, the soft counter limit, or a repair.
    Scheduled,
    // Authenticated silence while this node sends data.
    Silence,
}

pub const SCHEDULED: u64 = 0;

pub const SILENCE: u64 = 1;

impl Start {
    // The place in the source's list, from 0.
    pub fn number(self) -> u64
        ensures { result ≡ start_no self }
    {
        match self {
            Start::Scheduled => SCHEDULED,
            Start::Silence => SILENCE,
        }
    }
}

// All of them, in order.
pub fn all() -> [u64; 2]
    ensures { result ≡ starts }
{
    [SCHEDULED, SILENCE]
}
