// Which held epoch is meant: places in `Slot` (epoch.rs).
ghost use Rattle.std.specs.Prelude.{◌≡◌, eqb};
ghost use Rattle.numbers.specs.Numbers.{slots, slot_current, slot_pending, slot_previous};
ghost use Rattle.numbers.specs.Cases.{slot_no, gives_current, gives_pending, gives_previous};

// Which held epoch is meant.
#[derive(Clone, Copy, PartialEq, Eq)]
pub enum Slot {
    // The epoch that this node seals under.
    Current,
    // The completed epoch that waits to become current.
    Pending,
    // The epoch that is drained after a cutover.
    Previous,
}

pub const CURRENT: u8 = 0;

pub const PENDING: u8 = 1;

pub const PREVIOUS: u8 = 2;

impl Slot {
    // The slot that has this number. An `Option` and no `TryFrom`: an error could say no more.
    pub fn of(number: u8) -> Option<Slot>
        ensures current { eqb number slot_current ≡ gives_current result }
        ensures pending { eqb number slot_pending ≡ gives_pending result }
        ensures previous { eqb number slot_previous ≡ gives_previous result }
    {
        match number {
            CURRENT => Some(Slot::Current),
            PENDING => Some(Slot::Pending),
            PREVIOUS => Some(Slot::Previous),
            _ => None,
        }
    }

    // The place in the source's list, from 0.
    pub fn number(self) -> u8
        ensures { result ≡ slot_no self }
    {
        match self {
            Slot::Current => CURRENT,
            Slot::Pending => PENDING,
            Slot::Previous => PREVIOUS,
        }
    }
}

// All of them, in order.
pub fn all() -> [u8; 3]
    ensures { result ≡ slots }
{
    [CURRENT, PENDING, PREVIOUS]
}
