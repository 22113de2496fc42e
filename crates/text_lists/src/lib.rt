// The lists of names and words: of the events, of the cases that their fields name, of cycles, refusals
// and the settings' checks. docs/EVENTS.md says what each means, and program `page` holds it to these
// lists. No function has a `requires`.
#![tactic(auto)]

ghost use Rattle.std.specs.Prelude.{◌≡◌, length, ltb, min};
ghost use Rattle.std.specs.Option.{is_some};
ghost use Rattle.text_lists.specs.Lists.{events_count, first_of, count_of, has, table_no, holds, width_of};

mod words;

// The lists but that of the events.
#[derive(Clone, Copy, PartialEq, Eq)]
pub enum List {
    Messages,
    Slots,
    Purposes,
    Roles,
    Evidence,
    Reasons,
    Causes,
    Teardowns,
    Starts,
    Cycles,
    Waits,
    Refusals,
    Places,
}

// Any of the lists.
#[derive(Clone, Copy, PartialEq, Eq)]
pub enum Table {
    Events,
    Of(List),
}

// What a field of an event tells, and how many words of the log it takes: a number or a tag, one that may
// be absent (a word that is 0 or 1, and the number), a case of a list, or what is always 0 and is no
// word of the log.
#[derive(Clone, Copy, PartialEq, Eq)]
pub enum Sign {
    Number,
    MayNumber,
    Tag,
    MayTag,
    Case(List),
    Zero,
}

// A name, and what it means in words.
#[derive(Clone, Copy)]
pub struct Entry {
    pub name: &'static [u8],
    pub words: &'static [u8],
}

#[derive(Clone, Copy)]
pub struct Field {
    pub name: &'static [u8],
    pub sign: Sign,
}

#[derive(Clone, Copy)]
pub struct Event {
    pub entry: Entry,
    pub fields: &'static [Field],
}

// What stands for a number that a list has not, and for an event that there is not.
pub const UNKNOWN: Entry = Entry {
    name: b"unknown",
    words: b"no such number",
};

pub const UNKNOWN_EVENT: Event = Event {
    entry: UNKNOWN,
    fields: &[],
};

impl Event {
    // Event `number`.
    pub fn get(number: u64) -> Option<&'static Event>
        ensures { is_some result ≡ ltb number events_count }
    {
        words::EVENTS.get(usize::try_from(number).ok()?)
    }
}

impl List {
    // The number of its first entry.
    pub fn first(self) -> u64
        ensures { result ≡ first_of self }
    {
        match self {
            List::Refusals | List::Places => 1,
            _ => 0,
        }
    }

    // Entry `number`.
    pub fn get(self, number: u64) -> Option<&'static Entry>
        ensures { is_some result ≡ has self number }
    {
        let place = number.checked_sub(self.first())?;
        self.entries().get(usize::try_from(place).ok()?)
    }

    fn entries(self) -> &'static [Entry]
        ensures { length result.now ≡ count_of self }
    {
        match self {
            List::Messages => &words::MESSAGES,
            List::Slots => &words::SLOTS,
            List::Purposes => &words::PURPOSES,
            List::Roles => &words::ROLES,
            List::Evidence => &words::EVIDENCE,
            List::Reasons => &words::REASONS,
            List::Causes => &words::CAUSES,
            List::Teardowns => &words::TEARDOWNS,
            List::Starts => &words::STARTS,
            List::Cycles => &words::CYCLES,
            List::Waits => &words::WAITS,
            List::Refusals => &words::REFUSALS,
            List::Places => &words::PLACES,
        }
    }
}

impl Table {
    // Entry `number`.
    pub fn get(self, number: u64) -> Option<&'static Entry>
        ensures { is_some result ≡ holds self number }
    {
        match self {
            Table::Events => Some(&Event::get(number)?.entry),
            Table::Of(list) => list.get(number),
        }
    }
}

// The list that a number stands for: that of the events is 0, and a number past the lists stands for the last.
impl From<u8> for Table {
    fn from(number: u8) -> Table
        ensures { table_no result ≡ min number 13 }
    {
        match number {
            0 => Table::Events,
            1 => Table::Of(List::Messages),
            2 => Table::Of(List::Slots),
            3 => Table::Of(List::Purposes),
            4 => Table::Of(List::Roles),
            5 => Table::Of(List::Evidence),
            6 => Table::Of(List::Reasons),
            7 => Table::Of(List::Causes),
            8 => Table::Of(List::Teardowns),
            9 => Table::Of(List::Starts),
            10 => Table::Of(List::Cycles),
            11 => Table::Of(List::Waits),
            12 => Table::Of(List::Refusals),
            _ => Table::Of(List::Places),
        }
    }
}

impl Sign {
    // How many words of the log a field takes.
    pub fn width(self) -> usize
        ensures { result ≡ width_of self }
    {
        match self {
            Sign::Zero => 0,
            Sign::MayNumber | Sign::MayTag => 2,
            _ => 1,
        }
    }
}
