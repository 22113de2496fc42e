// Who an outcome is attributed to, and the number of each case: its place in `Attribution` (reason.rs).
ghost use Rattle.std.specs.Prelude.{◌≡◌};
ghost use Rattle.numbers.specs.Numbers.{attributions};
ghost use Rattle.numbers.specs.Reason.{attribution_no};

// Who an outcome is attributed to.
#[derive(Clone, Copy, PartialEq, Eq)]
pub enum Attribution {
    // The authenticated peer did it.
    Peer,
    // Anyone could have sent it: it did not authenticate, or is a copy of a message that did.
    Network,
    // This node: its own resources, configuration or bookkeeping.
    Local,
}

pub const PEER: u64 = 0;

pub const NETWORK: u64 = 1;

pub const LOCAL: u64 = 2;

impl Attribution {
    // The place in the source's list, from 0.
    pub fn number(self) -> u64
        ensures { result ≡ attribution_no self }
    {
        match self {
            Attribution::Peer => PEER,
            Attribution::Network => NETWORK,
            Attribution::Local => LOCAL,
        }
    }
}

// All of them, in order.
pub fn all() -> [u64; 3]
    ensures { result ≡ attributions }
{
    [PEER, NETWORK, LOCAL]
}
