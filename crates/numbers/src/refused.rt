// The numbers by which a call is sent back (document 01, "What is sent back by number"); 0 is none.
ghost use Rattle.std.specs.Prelude.{◌≡◌};
ghost use Rattle.numbers.specs.Numbers.{refusals};

// "The settings fail a check of 004; the first such check's place in file order, from 1, is given."
pub const SETTINGS: u8 = 1;

// "A profile value lies outside its range."
pub const PROFILE: u8 = 2;

// "The state holds more than 32 candidates."
pub const CANDIDATES: u8 = 3;

// "A pending or drained epoch stands without a current one."
pub const NO_CURRENT: u8 = 4;

// "Two epochs share a tag, or two candidates a sequence number."
pub const SHARED: u8 = 5;

// "A ladder has more than 16 rungs, or stands past its last."
pub const LADDER: u8 = 6;

// "A draw lies outside its range."
pub const DRAW: u8 = 7;

// "A frame names a slot that holds no epoch."
pub const SLOT: u8 = 8;

// "A frame's tag is not that epoch's tag."
pub const TAG: u8 = 9;

// "A start reply comes while no start is called for or the sent count has reached `hard`."
pub const NO_START: u8 = 10;

// "A told sent count is below the held one."
pub const SENT: u8 = 11;

// All of them, in order.
pub fn all() -> [u8; 11]
    ensures { result ≡ refusals }
{
    [
        SETTINGS, PROFILE, CANDIDATES, NO_CURRENT, SHARED, LADDER, DRAW, SLOT, TAG, NO_START, SENT,
    ]
}
