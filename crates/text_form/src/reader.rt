// Values of a line, one after another.
ghost use Rattle.std.specs.Prelude.{ℕ, ◌≡◌, List, true, false};
ghost use Rattle.text.specs.Scans.{number_at, accept_at, place_after, place_where};
ghost use Rattle.text_form.specs.Readings.{absent_word, optional_at};

use epoch::{Final, Index, MayLadder};
use ladder::Ladder;
use state::Bit;
use text::{Fault, Scan};
use time::When;

// What a field of a record holds, and where it does.
#[derive(Drop)]
pub enum Slot<'s> {
    Number(&'s mut u64),
    // A number up to this.
    Byte(&'s mut u8, u8),
    Half(&'s mut u16),
    Count(&'s mut usize),
    Flag(&'s mut bool),
    Signed(&'s mut i32),
    Bit(&'s mut Bit),
    When(&'s mut When),
    Index(&'s mut Index),
    Ladder(&'s mut Ladder),
    MayLadder(&'s mut MayLadder),
    Final(&'s mut Final),
    // These stand by place alone: the name itself, `+` or `-` by whether a record is there, and the kind
    // of the cycle as a word. The kind is the number that the state holds, since the state crosses to C so.
    Word,
    There(&'s mut bool),
    Cycle(&'s mut u8),
}

// The kinds of the cycle, by their numbers.
pub const KINDS: [&[u8]; 4] = [b"idle", b"init", b"pendi", b"pendr"];

// What is done with each field of a record, in their order.
pub trait Fields {
    // The line that is gone over, if one is: it stays as it is.
    ghost line: { Self → List ℕ };

    fn field(&mut self, name: &'static [u8], slot: Slot<'_>) -> Result<(), Fault>
        ensures { line self.new ≡ line self.old };
}

// How far a line is read, the most that the last number could be, whether the line claims more than is
// kept (more than MAX_RUNGS rungs, or a cursor past 255), and whether an absent value is `none`, as where
// values have names, or `-`. After a fault the scan stands at the field at fault.
#[derive(Clone, Copy)]
pub struct Reader<'a> {
    pub scan: Scan<'a>,
    pub most: u64,
    pub cut: bool,
    pub(crate) named: bool,
}

// A reader by place.
impl Fields for Reader<'_> {
    ghost line = { λ r. r.scan.line.now };

    fn field(&mut self, name: &'static [u8], slot: Slot<'_>) -> Result<(), Fault> {
        if let Slot::Word = slot {
            return self.word(name);
        }
        self.read(slot)
    }
}

impl<'a> Reader<'a> {
    pub fn by_place(scan: Scan<'a>) -> Reader<'a>
        ensures scan { result.scan ≡ scan.entry }
        ensures named { result.named ≡ false }
        ensures cut { result.cut ≡ false }
    {
        Reader {
            scan,
            most: time::END,
            cut: false,
            named: false,
        }
    }

    pub(crate) fn by_name(scan: Scan<'a>) -> Reader<'a>
        ensures scan { result.scan ≡ scan.entry }
        ensures named { result.named ≡ true }
        ensures cut { result.cut ≡ false }
    {
        Reader {
            scan,
            most: time::END,
            cut: false,
            named: true,
        }
    }

    pub fn read(&mut self, slot: Slot<'_>) -> Result<(), Fault>
        ensures { self.new.scan.line ≡ self.old.scan.line }
    {
        match slot {
            Slot::Number(n) => *n = self.number(time::END)?,
            Slot::Byte(n, most) => *n = byte(self.number(u64::from(most))?),
            Slot::Half(n) => *n = u16::try_from(self.number(65535)?).unwrap_or(u16::MAX),
            Slot::Count(n) => *n = self.number(time::END)? as usize,
            Slot::Flag(on) => *on = self.number(1)? == 1,
            Slot::Signed(n) => *n = self.signed()?,
            Slot::Bit(b) => *b = self.bit()?,
            Slot::When(w) => *w = self.optional(time::END)?.into(),
            Slot::Index(x) => *x = self.index()?,
            Slot::Ladder(l) => *l = self.ladder()?,
            Slot::MayLadder(l) => *l = self.may_ladder()?,
            Slot::Final(f) => *f = self.fin()?,
            Slot::Word => (),
            Slot::There(there) => *there = self.there()?,
            Slot::Cycle(kind) => *kind = byte(self.scan.word(&KINDS)? as u64),
        }
        Ok(())
    }

    // A number up to `most`.
    pub fn number(&mut self, most: u64) -> Result<u64, Fault>
        ensures value { result ≡ number_at self.old.scan.line.now self.old.scan.at most }
        ensures line { self.new.scan.line ≡ self.old.scan.line }
        ensures at { self.new.scan.at ≡ place_after self.old.scan.line.now self.old.scan.at result }
        ensures most { self.new.most ≡ most }
    {
        self.most = most;
        self.scan.number(most)
    }

    // A number from -2^31 to 2^31 - 1.
    pub(crate) fn signed(&mut self) -> Result<i32, Fault>
        ensures { self.new.scan.line ≡ self.old.scan.line }
    {
        self.most = 2147483647;
        self.scan.signed()
    }

    // A number up to `most`, or the word for an absent value.
    pub fn optional(&mut self, most: u64) -> Result<Option<u64>, Fault>
        ensures value { result ≡ optional_at self.old.named self.old.scan.line.now self.old.scan.at most }
        ensures line { self.new.scan.line ≡ self.old.scan.line }
    {
        if self.absent() {
            return Ok(None);
        }
        Ok(Some(self.number(most)?))
    }

    // Moves past the word for an absent value where it stands there.
    fn absent(&mut self) -> bool
        ensures value { result ≡ accept_at self.old.scan.line.now self.old.scan.at (absent_word self.old.named) }
        ensures line { self.new.scan.line ≡ self.old.scan.line }
        ensures at { self.new.scan.at ≡ place_where self.old.scan.line.now self.old.scan.at result }
    {
        if self.named {
            return self.scan.accept(b"none");
        }
        self.scan.accept(b"-")
    }

    fn word(&mut self, word: &'static [u8]) -> Result<(), Fault>
        ensures { self.new.scan.line ≡ self.old.scan.line }
    {
        self.scan.word(&[word])?;
        Ok(())
    }

    // `+` or `-`. By name a record has no `+`: its fields follow.
    fn there(&mut self) -> Result<bool, Fault>
        ensures { self.new.scan.line ≡ self.old.scan.line }
    {
        if self.named {
            return Ok(!self.absent());
        }
        Ok(self.scan.word(&[b"-", b"+"])? == 1)
    }

    fn bit(&mut self) -> Result<Bit, Fault>
        ensures { self.new.scan.line ≡ self.old.scan.line }
    {
        let n = self.optional(1)?;
        Ok(Bit {
            some: n.is_some(),
            on: n == Some(1),
        })
    }

    fn index(&mut self) -> Result<Index, Fault>
        ensures { self.new.scan.line ≡ self.old.scan.line }
    {
        let n = self.optional(4294967295)?;
        Ok(Index {
            some: n.is_some(),
            index: u32::try_from(n.unwrap_or(0)).unwrap_or(u32::MAX),
        })
    }

    fn may_ladder(&mut self) -> Result<MayLadder, Fault>
        ensures { self.new.scan.line ≡ self.old.scan.line }
    {
        if !self.there()? {
            return Ok(MayLadder::NONE);
        }
        Ok(MayLadder {
            some: true,
            ladder: self.ladder()?,
        })
    }

    fn fin(&mut self) -> Result<Final, Fault>
        ensures { self.new.scan.line ≡ self.old.scan.line }
    {
        if !self.there()? {
            return Ok(Final::NONE);
        }
        Ok(Final {
            some: true,
            msg: self.number(time::END)?,
            ladder: self.ladder()?,
        })
    }

    // The origin, the cursor, the length, the keepalive map, and the offsets.
    fn ladder(&mut self) -> Result<Ladder, Fault>
        ensures { self.new.scan.line ≡ self.old.scan.line }
    {
        let mut read = Ladder::EMPTY;
        read.origin = self.number(time::END)?;
        let next = self.number(time::END)?;
        let len = self.number(time::END)?;
        read.sched.keepalive = self.number(time::END)?;
        self.offsets(len, &mut read.sched.at)?;
        read.next = byte(next);
        read.sched.len = byte(len);
        self.cut = self.cut || ladder::MAX_COUNT < len || 255 < next;
        Ok(read)
    }

    // Reads `n` offsets and keeps the first MAX_RUNGS.
    fn offsets(&mut self, n: u64, at: &mut [u64; ladder::MAX_RUNGS]) -> Result<(), Fault>
        ensures { self.new.scan.line ≡ self.old.scan.line }
    {
        // By number: a line may hold more offsets than are kept.
        for i in 0..n {
            let offset = self.number(time::END)?;
            if let Some(place) = at.get_mut(i as usize) {
                *place = offset;
            }
        }
        Ok(())
    }
}

fn byte(n: u64) -> u8 {
    u8::try_from(n).unwrap_or(u8::MAX)
}
