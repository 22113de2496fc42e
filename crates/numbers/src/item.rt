// The kinds of due items, in the order in which rows are processed where instants tie: places in `Due` (machine.rs).
ghost use Rattle.std.specs.Prelude.{◌≡◌, min};
ghost use Rattle.numbers.specs.Numbers.{items, item_expire};
ghost use Rattle.numbers.specs.Cases.{kind_no};

// The kind of a due item.
#[derive(Clone, Copy, PartialEq, Eq)]
pub enum Kind {
    Drain,
    Candidate,
    Unadopted,
    Held,
    Probe,
    Delayed,
    Fin,
    Elicit,
    Confirm,
    DelayEnd,
    // No key: 0 stands for it.
    Resend,
    // No key: 0 stands for it.
    Expire,
}

pub const DRAIN: u64 = 0;

pub const CANDIDATE: u64 = 1;

pub const UNADOPTED: u64 = 2;

pub const HELD: u64 = 3;

pub const PROBE: u64 = 4;

pub const DELAYED: u64 = 5;

pub const FIN: u64 = 6;

pub const ELICIT: u64 = 7;

pub const CONFIRM: u64 = 8;

pub const DELAY_END: u64 = 9;

pub const RESEND: u64 = 10;

pub const EXPIRE: u64 = 11;

impl Kind {
    // The place in the source's list, from 0.
    pub fn number(self) -> u64
        ensures { result ≡ kind_no self }
    {
        match self {
            Kind::Drain => DRAIN,
            Kind::Candidate => CANDIDATE,
            Kind::Unadopted => UNADOPTED,
            Kind::Held => HELD,
            Kind::Probe => PROBE,
            Kind::Delayed => DELAYED,
            Kind::Fin => FIN,
            Kind::Elicit => ELICIT,
            Kind::Confirm => CONFIRM,
            Kind::DelayEnd => DELAY_END,
            Kind::Resend => RESEND,
            Kind::Expire => EXPIRE,
        }
    }
}

// The kind that a number stands for; a number past the list stands for the last kind, as the rows of a poll take it.
impl From<u64> for Kind {
    fn from(number: u64) -> Kind
        ensures { kind_no result ≡ min number item_expire }
    {
        match number {
            DRAIN => Kind::Drain,
            CANDIDATE => Kind::Candidate,
            UNADOPTED => Kind::Unadopted,
            HELD => Kind::Held,
            PROBE => Kind::Probe,
            DELAYED => Kind::Delayed,
            FIN => Kind::Fin,
            ELICIT => Kind::Elicit,
            CONFIRM => Kind::Confirm,
            DELAY_END => Kind::DelayEnd,
            RESEND => Kind::Resend,
            _ => Kind::Expire,
        }
    }
}

// All of them, in order.
pub fn all() -> [u64; 12]
    ensures { result ≡ items }
{
    [
        DRAIN, CANDIDATE, UNADOPTED, HELD, PROBE, DELAYED, FIN, ELICIT, CONFIRM, DELAY_END, RESEND,
        EXPIRE,
    ]
}
