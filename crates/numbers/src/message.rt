// Which handshake message is sent: places in `MsgKind` (mod.rs).
ghost use Rattle.std.specs.Prelude.{◌≡◌};
ghost use Rattle.numbers.specs.Numbers.{messages};
ghost use Rattle.numbers.specs.Cases.{message_no};

// Which handshake message is sent.
#[derive(Clone, Copy, PartialEq, Eq)]
pub enum Message {
    // An IK msg1.
    Msg1,
    // An IK msg2.
    Msg2,
    // An XK msg1.
    Setup,
    // An XK msg2.
    Ack,
    // An XK msg3.
    Msg3,
}

pub const MSG1: u64 = 0;

pub const MSG2: u64 = 1;

pub const SETUP: u64 = 2;

pub const ACK: u64 = 3;

pub const MSG3: u64 = 4;

impl Message {
    // The place in the source's list, from 0.
    pub fn number(self) -> u64
        ensures { result ≡ message_no self }
    {
        match self {
            Message::Msg1 => MSG1,
            Message::Msg2 => MSG2,
            Message::Setup => SETUP,
            Message::Ack => ACK,
            Message::Msg3 => MSG3,
        }
    }
}

// All of them, in order.
pub fn all() -> [u64; 5]
    ensures { result ≡ messages }
{
    [MSG1, MSG2, SETUP, ACK, MSG3]
}
