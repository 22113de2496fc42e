// What an event's word, or an item's kind, may be made of: a number itself, or a case of a list, which stands for its
// number.
ghost use Rattle.std.specs.Prelude.{◌≡◌, ℕ};
ghost use Rattle.numbers.specs.Cases.{message_no, purpose_no, evidence_no, start_no, slot_no, kind_no};
ghost use Rattle.numbers.specs.Reason.{reason_no, abandon_no, teardown_no};

use crate::abandon::Abandon;
use crate::evidence::Evidence;
use crate::item::Kind;
use crate::message::Message;
use crate::purpose::Purpose;
use crate::reason::Reason;
use crate::slot::Slot;
use crate::start::Start;
use crate::teardown::Teardown;

// What stands for a number.
pub trait Numbered {
    // The number.
    ghost number_of: { Self → ℕ };

    // The number.
    fn to_number(self) -> u64
        ensures { result ≡ number_of self };
}

impl Numbered for u64 {
    ghost number_of = { λ n. n };

    fn to_number(self) -> u64 {
        self
    }
}

impl Numbered for Message {
    ghost number_of = { message_no };

    fn to_number(self) -> u64 {
        Message::number(self)
    }
}

impl Numbered for Purpose {
    ghost number_of = { purpose_no };

    fn to_number(self) -> u64 {
        Purpose::number(self)
    }
}

impl Numbered for Evidence {
    ghost number_of = { evidence_no };

    fn to_number(self) -> u64 {
        Evidence::number(self)
    }
}

impl Numbered for Start {
    ghost number_of = { start_no };

    fn to_number(self) -> u64 {
        Start::number(self)
    }
}

impl Numbered for Slot {
    ghost number_of = { slot_no };

    fn to_number(self) -> u64 {
        u64::from(Slot::number(self))
    }
}

impl Numbered for Kind {
    ghost number_of = { kind_no };

    fn to_number(self) -> u64 {
        Kind::number(self)
    }
}

impl Numbered for Reason {
    ghost number_of = { reason_no };

    fn to_number(self) -> u64 {
        Reason::number(self)
    }
}

impl Numbered for Abandon {
    ghost number_of = { abandon_no };

    fn to_number(self) -> u64 {
        Abandon::number(self)
    }
}

impl Numbered for Teardown {
    ghost number_of = { teardown_no };

    fn to_number(self) -> u64 {
        Teardown::number(self)
    }
}
