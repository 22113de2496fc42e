// The one list of calls: what a line of a program can name. `replay` reads the arguments of a call by
// place and `runs` by name. No function has a `requires`.
#![tactic(auto)]

ghost use Rattle.std.specs.Prelude.{◌≡◌, IfSome, true};
ghost use Rattle.std.specs.Option.{is_some};
ghost use Rattle.text.specs.Scans.{accept_at, place_where};
ghost use Rattle.text_words.specs.Calls.{call_no, call_told};
ghost use Rattle.text_words.specs.Places.{width_of, widths, has_place};
ghost use Rattle.text_words.specs.Words.{name_of, places_of, has_choice};

mod tables;

use text::Scan;

#[derive(Clone, Copy, PartialEq, Eq)]
pub enum Call {
    Open,
    Poll,
    Frame,
    Reply,
    Sent,
    // The notices.
    Worker,
    Delegated,
    Undelegated,
    DataSent,
    Path,
    // The calls that hand no state back.
    Wake,
    Status,
}

// The call that a number stands for; a number past the list stands for the last notice, as it is answered.
impl From<u8> for Call {
    fn from(number: u8) -> Call
        ensures { call_no result ≡ call_told number }
    {
        match number {
            0 => Call::Open,
            1 => Call::Poll,
            2 => Call::Frame,
            3 => Call::Reply,
            4 => Call::Sent,
            5 => Call::Worker,
            6 => Call::Delegated,
            7 => Call::Undelegated,
            8 => Call::DataSent,
            10 => Call::Wake,
            11 => Call::Status,
            _ => Call::Path,
        }
    }
}

// What an argument's value can be.
#[derive(Clone, Copy)]
pub enum Kind {
    // A number up to this.
    Number(u64),
    // A number from -2^31 to 2^31 - 1.
    Signed,
    // A number up to this, or none.
    Optional(u64),
    // A buffer: in hex by place, its length up to this by name.
    Buffer(u64),
    // 0 or 1 by place; by name one of two words, which stand for 1 and 0.
    Choice(Words),
}

// The two words of a choice, that for 1 first, and what they are called.
#[derive(Clone, Copy)]
pub struct Words {
    pub one: &'static [u8],
    pub zero: &'static [u8],
    pub what: &'static str,
}

// What an argument that a line does not name is.
#[derive(Clone, Copy, PartialEq, Eq)]
pub enum Default {
    // The argument stands by place in both programs, and has none.
    Place,
    // It stands by place in `runs`, where it may be left out; it does not stand in `replay`.
    Kept,
    Value(u64),
    None,
    // The tag of the current epoch; of a frame, that of the epoch in its slot.
    Tag,
}

#[derive(Clone, Copy)]
pub struct Argument {
    pub name: &'static [u8],
    pub kind: Kind,
    pub default: Default,
}

pub const CALLS: [Call; 12] = [
    Call::Open,
    Call::Poll,
    Call::Frame,
    Call::Reply,
    Call::Sent,
    Call::Worker,
    Call::Delegated,
    Call::Undelegated,
    Call::DataSent,
    Call::Path,
    Call::Wake,
    Call::Status,
];

impl Call {
    // The call whose name the next field of a line is, with the scan moved past it.
    pub fn read(scan: &mut Scan<'_>) -> Option<Call>
        ensures named { IfSome result (λ call. accept_at scan.old.line.now scan.old.at (name_of call) ≡ true) }
        ensures line { scan.new.line ≡ scan.old.line }
        ensures at { scan.new.at ≡ place_where scan.old.line.now scan.old.at (is_some result) }
    {
        for call in CALLS {
            if scan.accept(call.name()) {
                return Some(call);
            }
        }
        None
    }

    // The first word of the call's line.
    pub fn name(self) -> &'static [u8]
        ensures { result.now ≡ name_of self }
    {
        match self {
            Call::Open => b"open",
            Call::Poll => b"poll",
            Call::Frame => b"frame",
            Call::Reply => b"reply",
            Call::Sent => b"sent",
            Call::Worker => b"worker",
            Call::Delegated => b"delegated",
            Call::Undelegated => b"undelegated",
            Call::DataSent => b"datasent",
            Call::Path => b"path",
            Call::Wake => b"wake",
            Call::Status => b"status",
        }
    }

    // What stands behind it, in the order by place.
    pub fn arguments(self) -> &'static [Argument]
        ensures { widths result.now ≡ places_of self }
    {
        match self {
            Call::Open => tables::OPEN,
            Call::Poll => tables::POLL,
            Call::Frame => tables::FRAME,
            Call::Reply => tables::REPLY,
            Call::Sent => tables::SENT,
            Call::Worker => tables::WORKER,
            Call::Delegated | Call::Undelegated => tables::TAGGED,
            Call::DataSent => tables::DATA_SENT,
            Call::Path => tables::PATH,
            Call::Wake => tables::WAKE,
            Call::Status => tables::STATUS,
        }
    }

    // The choice by which the arguments by name begin, if they do.
    pub fn choice(self) -> Option<Words>
        ensures { is_some result ≡ has_choice self }
    {
        match self {
            Call::Open => Some(tables::ROLES),
            Call::Reply => Some(tables::REPLIES),
            _ => None,
        }
    }
}

impl Argument {
    // Whether it stands by place in `runs` too.
    pub fn by_place(&self) -> bool
        ensures { result ≡ has_place self.now.default }
    {
        self.default == Default::Place || self.default == Default::Kept
    }
}

impl Kind {
    // How many numbers of a row hold such a value.
    pub fn width(self) -> usize
        ensures { result ≡ width_of self }
    {
        match self {
            Kind::Optional(_) => 2,
            _ => 1,
        }
    }
}
