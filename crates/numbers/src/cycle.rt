// The rotation cycle; a state with any other number counts as `IDLE`: places in `Cycle` (cycle.rs).
ghost use Rattle.std.specs.Prelude.{◌≡◌, eqb};
ghost use Rattle.numbers.specs.Numbers.{cycles, cycle_init, cycle_pend_i, cycle_pend_r};
ghost use Rattle.numbers.specs.Cases.{stage_no, at_init, at_pend_i, at_pend_r};

// The kind of a rotation cycle.
#[derive(Clone, Copy, PartialEq, Eq)]
pub enum Stage {
    // No attempt in progress.
    Idle,
    // An own attempt, its reply not yet authenticated.
    Init,
    // An own attempt that completed.
    PendI,
    // A peer's attempt that completed.
    PendR,
}

pub const IDLE: u8 = 0;

pub const INIT: u8 = 1;

pub const PENDI: u8 = 2;

pub const PENDR: u8 = 3;

impl Stage {
    // The place in the source's list, from 0.
    pub fn number(self) -> u8
        ensures { result ≡ stage_no self }
    {
        match self {
            Stage::Idle => IDLE,
            Stage::Init => INIT,
            Stage::PendI => PENDI,
            Stage::PendR => PENDR,
        }
    }
}

// The kind that a state's number stands for.
impl From<u8> for Stage {
    fn from(kind: u8) -> Stage
        ensures init { eqb kind cycle_init ≡ at_init result }
        ensures pend_i { eqb kind cycle_pend_i ≡ at_pend_i result }
        ensures pend_r { eqb kind cycle_pend_r ≡ at_pend_r result }
    {
        match kind {
            INIT => Stage::Init,
            PENDI => Stage::PendI,
            PENDR => Stage::PendR,
            _ => Stage::Idle,
        }
    }
}

// All of them, in order.
pub fn all() -> [u8; 4]
    ensures { result ≡ cycles }
{
    [IDLE, INIT, PENDI, PENDR]
}
