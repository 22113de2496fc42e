// Why a machine was closed, and the number of each case: its place in `Close` (reason.rs).
ghost use Rattle.std.specs.Prelude.{◌≡◌};
ghost use Rattle.numbers.specs.Numbers.{closes};
ghost use Rattle.numbers.specs.Reason.{close_no};

// Why the shell closed a machine.
#[derive(Clone, Copy, PartialEq, Eq)]
pub enum Close {
    // The peer restarted, seen at node level.
    Restart,
    // The peer sent a Disconnect.
    Disconnect,
    // The link was declared dead.
    LinkDead,
    // The session was idle too long.
    IdlePurge,
    // An operator removed the peer.
    Admin,
    // The peer moved to the winning session of a cross-connection.
    CrossConnectionMove,
    // The machine asked to be torn down while opening.
    OpeningTeardown,
    // The node is shutting down.
    Shutdown,
}

pub const RESTART: u64 = 0;

pub const DISCONNECT: u64 = 1;

pub const LINK_DEAD: u64 = 2;

pub const IDLE_PURGE: u64 = 3;

pub const ADMIN: u64 = 4;

pub const CROSS_CONNECTION_MOVE: u64 = 5;

pub const OPENING_TEARDOWN: u64 = 6;

pub const SHUTDOWN: u64 = 7;

impl Close {
    // The place in the source's list, from 0.
    pub fn number(self) -> u64
        ensures { result ≡ close_no self }
    {
        match self {
            Close::Restart => RESTART,
            Close::Disconnect => DISCONNECT,
            Close::LinkDead => LINK_DEAD,
            Close::IdlePurge => IDLE_PURGE,
            Close::Admin => ADMIN,
            Close::CrossConnectionMove => CROSS_CONNECTION_MOVE,
            Close::OpeningTeardown => OPENING_TEARDOWN,
            Close::Shutdown => SHUTDOWN,
        }
    }
}

// All of them, in order.
pub fn all() -> [u64; 8]
    ensures { result ≡ closes }
{
    [
        RESTART,
        DISCONNECT,
        LINK_DEAD,
        IDLE_PURGE,
        ADMIN,
        CROSS_CONNECTION_MOVE,
        OPENING_TEARDOWN,
        SHUTDOWN,
    ]
}
