// The state as a line of the replay format. No function has a `requires`.
#![tactic(auto)]

ghost use Rattle.std.specs.Prelude.{◌≡◌, true, false, [], ◌∷◌, ◌++◌, cond};
ghost use Rattle.text_lines.specs.Puts.{Puts, number_text, optional_text};
ghost use Rattle.text_show.specs.Shown.{kind_word as word_of, dash, there_text, signed_text, numbers_text, ladder_text, may_ladder_text, final_text};

use epoch::{Final, MayLadder};
use ladder::Ladder;
use state::State;
use text::Fault;
use text_form::{Fields, KINDS, Slot};
use text_lines::Output;
use text_records::Record;

// Writes what stands behind the word `state`. Of a ladder only the offsets below its length are written,
// and its keepalive map whole, as the Rust shows it.
pub fn write_state<R: Print>(out: &mut Output<'_, '_, R>, s: State)
    ensures { out.new.buffer.ghost_name ≡ out.old.buffer.ghost_name }
{
    let mut writer = Writer { out, first: true };
    write_fields(&mut writer, s);
}

fn write_fields<R: Print>(writer: &mut Writer<'_, '_, '_, R>, s: State)
    ensures same_output { writer.new.out.ghost_name ≡ writer.old.out.ghost_name }
    ensures same_reference { writer.new.out.now.buffer.ghost_name ≡ writer.old.out.now.buffer.ghost_name }
{
    let mut shown = s;
    let _ = shown.fields(writer);
}

// The output, and whether nothing was written yet.
#[derive(Drop)]
struct Writer<'w, 'r, 'b, R> {
    out: &'w mut Output<'r, 'b, R>,
    first: bool,
}

impl<R: Print> Fields for Writer<'_, '_, '_, R> {
    // The output and its buffer, by their names.
    ghost line = { λ w. w.out.ghost_name ∷ w.out.now.buffer.ghost_name ∷ [] };

    fn field(&mut self, name: &'static [u8], slot: Slot<'_>) -> Result<(), Fault> {
        if let Slot::Word = slot {
            self.word(name);
        } else {
            self.write(slot);
        }
        Ok(())
    }
}

impl<R: Print> Writer<'_, '_, '_, R> {
    fn write(&mut self, slot: Slot<'_>)
        ensures same_output { self.new.out.ghost_name ≡ self.old.out.ghost_name }
        ensures same_reference { self.new.out.now.buffer.ghost_name ≡ self.old.out.now.buffer.ghost_name }
    {
        match slot {
            Slot::Number(n) => self.number(*n),
            Slot::Byte(n, _) => self.number(u64::from(*n)),
            Slot::Half(n) => self.number(u64::from(*n)),
            Slot::Count(n) => self.number(*n as u64),
            Slot::Flag(on) => self.number(u64::from(*on)),
            Slot::Signed(n) => self.signed(*n),
            Slot::Bit(b) => self.optional(b.some.then_some(u64::from(b.on))),
            Slot::When(w) => self.optional(w.get()),
            Slot::Index(x) => self.optional(x.some.then_some(u64::from(x.index))),
            Slot::Ladder(l) => self.ladder(*l),
            Slot::MayLadder(l) => self.may_ladder(*l),
            Slot::Final(f) => self.fin(*f),
            Slot::Word => (),
            Slot::There(there) => self.there(*there),
            Slot::Cycle(kind) => self.word(kind_word(*kind)),
        }
    }

    // The word, with a space before it unless it is the first.
    fn word(&mut self, word: &[u8])
        ensures puts { Puts (cond self.old.first [] ((32 ∷ []) ∷ []) ++ (word.now ∷ [])) self.old.out.now self.new.out.now }
        ensures same_output { self.new.out.ghost_name ≡ self.old.out.ghost_name }
        ensures first { self.new.first ≡ false }
    {
        if !self.first {
            self.out.bytes(b" ");
        }
        self.first = false;
        self.out.bytes(word);
    }

    fn number(&mut self, n: u64)
        ensures puts { Puts (number_text n) self.old.out.now self.new.out.now }
        ensures same_output { self.new.out.ghost_name ≡ self.old.out.ghost_name }
    {
        self.out.spaced(n);
    }

    fn optional(&mut self, n: Option<u64>)
        ensures puts { Puts (optional_text n dash) self.old.out.now self.new.out.now }
        ensures same_output { self.new.out.ghost_name ≡ self.old.out.ghost_name }
    {
        self.out.spaced_or(n, b" -");
    }

    fn signed(&mut self, n: i32)
        ensures puts { Puts (signed_text n) self.old.out.now self.new.out.now }
        ensures same_output { self.new.out.ghost_name ≡ self.old.out.ghost_name }
    {
        if n < 0 {
            self.out.bytes(b" -");
            self.out.number(u64::from(n.unsigned_abs()));
        } else {
            self.number(u64::from(n.unsigned_abs()));
        }
    }

    fn there(&mut self, there: bool)
        ensures puts { Puts (there_text there) self.old.out.now self.new.out.now }
        ensures same_output { self.new.out.ghost_name ≡ self.old.out.ghost_name }
    {
        if there {
            self.out.bytes(b" +");
        } else {
            self.out.bytes(b" -");
        }
    }

    fn may_ladder(&mut self, may: MayLadder)
        ensures puts { Puts (may_ladder_text may) self.old.out.now self.new.out.now }
        ensures same_output { self.new.out.ghost_name ≡ self.old.out.ghost_name }
    {
        self.there(may.some);
        if may.some {
            self.ladder(may.ladder);
        }
    }

    fn fin(&mut self, fin: Final)
        ensures puts { Puts (final_text fin) self.old.out.now self.new.out.now }
        ensures same_output { self.new.out.ghost_name ≡ self.old.out.ghost_name }
    {
        self.there(fin.some);
        if fin.some {
            self.number(fin.msg);
            self.ladder(fin.ladder);
        }
    }

    fn ladder(&mut self, l: Ladder)
        ensures puts { Puts (ladder_text l) self.old.out.now self.new.out.now }
        ensures same_output { self.new.out.ghost_name ≡ self.old.out.ghost_name }
    {
        self.number(l.origin);
        self.number(u64::from(l.next));
        self.number(u64::from(l.sched.len));
        self.number(l.sched.keepalive);
        let len = usize::from(l.sched.len).min(l.sched.at.len());
        self.numbers(&l.sched.at[..len]);
    }

    fn numbers(&mut self, ns: &[u64])
        ensures puts { Puts (numbers_text ns.now) self.old.out.now self.new.out.now }
        ensures same_output { self.new.out.ghost_name ≡ self.old.out.ghost_name }
    {
        for n in ns {
            self.number(*n);
        }
    }
}

// The word for a kind of the cycle, which is a number in C's state; any other number counts as idle.
fn kind_word(kind: u8) -> &'static [u8]
    ensures { result.now ≡ word_of kind }
{
    KINDS.get(usize::from(kind)).copied().unwrap_or(b"idle")
}
