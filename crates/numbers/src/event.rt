// The kinds of events: places in `Output` (mod.rs), and then the three that document 01 adds.
ghost use Rattle.std.specs.Prelude.{◌≡◌};
ghost use Rattle.numbers.specs.Numbers.{events};

pub const SEND: u64 = 0;

pub const PROMPT: u64 = 1;

pub const DELIVER: u64 = 2;

pub const BIND: u64 = 3;

pub const UNBIND: u64 = 4;

pub const DELEGATE: u64 = 5;

pub const REVOKE: u64 = 6;

pub const RELEASE: u64 = 7;

pub const INSTALLED: u64 = 8;

pub const RETIRED: u64 = 9;

pub const REVERTED: u64 = 10;

pub const PEER_RESTARTED: u64 = 11;

pub const REKEYED: u64 = 12;

// No ported call gives it.
pub const REPLACE_REQUESTED: u64 = 13;

pub const REJECT: u64 = 14;

pub const ABANDONED: u64 = 15;

pub const TEARDOWN: u64 = 16;

// Added: a counter counts as received (`mark`).
pub const MARK: u64 = 17;

// Added: a handshake is to be started.
pub const START: u64 = 18;

// Added: a responder pending ended (`PendR::end`).
pub const ENDED: u64 = 19;

// All of them, in order.
pub fn all() -> [u64; 20]
    ensures { result ≡ events }
{
    [
        SEND,
        PROMPT,
        DELIVER,
        BIND,
        UNBIND,
        DELEGATE,
        REVOKE,
        RELEASE,
        INSTALLED,
        RETIRED,
        REVERTED,
        PEER_RESTARTED,
        REKEYED,
        REPLACE_REQUESTED,
        REJECT,
        ABANDONED,
        TEARDOWN,
        MARK,
        START,
        ENDED,
    ]
}
