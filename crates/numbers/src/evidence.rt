// How an epoch became current: places in `EvidenceKind` (proof.rs).
ghost use Rattle.std.specs.Prelude.{◌≡◌};
ghost use Rattle.numbers.specs.Numbers.{evidences};
ghost use Rattle.numbers.specs.Cases.{evidence_no};

// How an epoch became current.
#[derive(Clone, Copy, PartialEq, Eq)]
pub enum Evidence {
    // The completion proves that the peer holds the keys.
    Proof,
    // A frame of the peer authenticated under the epoch.
    Frame,
    // The completion revealed a restart.
    Restart,
    // The confirmation deadline passed with nothing heard.
    Assumed,
    // The deadline of a delayed cutover passed.
    Delay,
    // The first handshake of a session.
    First,
}

pub const PROOF: u64 = 0;

pub const FRAME: u64 = 1;

pub const RESTART: u64 = 2;

pub const ASSUMED: u64 = 3;

pub const DELAY: u64 = 4;

pub const FIRST: u64 = 5;

impl Evidence {
    // The place in the source's list, from 0.
    pub fn number(self) -> u64
        ensures { result ≡ evidence_no self }
    {
        match self {
            Evidence::Proof => PROOF,
            Evidence::Frame => FRAME,
            Evidence::Restart => RESTART,
            Evidence::Assumed => ASSUMED,
            Evidence::Delay => DELAY,
            Evidence::First => FIRST,
        }
    }
}

// All of them, in order.
pub fn all() -> [u64; 6]
    ensures { result ≡ evidences }
{
    [PROOF, FRAME, RESTART, ASSUMED, DELAY, FIRST]
}
