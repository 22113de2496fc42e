// What a binding of an index is for: places in `Purpose` (epoch.rs).
ghost use Rattle.std.specs.Prelude.{◌≡◌};
ghost use Rattle.numbers.specs.Numbers.{purposes};
ghost use Rattle.numbers.specs.Cases.{purpose_no};

// What a binding of an index is for.
#[derive(Clone, Copy, PartialEq, Eq)]
pub enum Purpose {
    // The index of an own attempt.
    Attempt,
    // The index of a pending epoch.
    Pending,
    // The index of the current epoch.
    Current,
    // The index of the epoch that is drained.
    Previous,
}

pub const ATTEMPT: u64 = 0;

pub const PENDING: u64 = 1;

pub const CURRENT: u64 = 2;

pub const PREVIOUS: u64 = 3;

impl Purpose {
    // The place in the source's list, from 0.
    pub fn number(self) -> u64
        ensures { result ≡ purpose_no self }
    {
        match self {
            Purpose::Attempt => ATTEMPT,
            Purpose::Pending => PENDING,
            Purpose::Current => CURRENT,
            Purpose::Previous => PREVIOUS,
        }
    }
}

// All of them, in order.
pub fn all() -> [u64; 4]
    ensures { result ≡ purposes }
{
    [ATTEMPT, PENDING, CURRENT, PREVIOUS]
}
