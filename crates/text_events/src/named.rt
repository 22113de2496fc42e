// Names and words of the lists, written.
ghost use Rattle.text_events.specs.Named.{Enters, Names, Cases, Refuses, Cycle};

use text_lines::Output;
use text_lists::{Entry, List, Table, UNKNOWN};

fn entry_of(table: Table, number: u64) -> Entry
    ensures { Enters table number result }
{
    table.get(number).copied().unwrap_or(UNKNOWN)
}

// The name of entry `number` of a list.
pub fn write_name(out: &mut Output<'_, '_, impl Print>, table: Table, number: u64)
    ensures { Names table number out.old out.new }
{
    out.bytes(entry_of(table, number).name);
}

// ` `, the name of a case and its words in brackets.
pub(crate) fn write_case(out: &mut Output<'_, '_, impl Print>, list: List, number: u64)
    ensures { Cases list number out.old out.new }
{
    let entry = entry_of(Table::Of(list), number);
    out.bytes(b" ");
    out.bytes(entry.name);
    out.bytes(b" (");
    out.bytes(entry.words);
    out.bytes(b")");
}

// ` # ` and what a refusal says; of the settings' also which check fails. By number, as C's answers hold the two.
pub fn write_refused(out: &mut Output<'_, '_, impl Print>, number: u64, place: u64)
    ensures { Refuses number place out.old out.new }
{
    out.bytes(b" # ");
    out.bytes(entry_of(Table::Of(List::Refusals), number).words);
    if place != 0 {
        out.bytes(b": ");
        out.bytes(entry_of(Table::Of(List::Places), place).words);
    }
}

// ` # ` and what the cycle of the link line is, and whether its wake has passed. The kind by number, as C's link line
// holds it.
pub fn write_cycle(out: &mut Output<'_, '_, impl Print>, kind: u64, passed: bool)
    ensures { Cycle kind passed out.old out.new }
{
    out.bytes(b" # cycle");
    write_case(out, List::Cycles, kind);
    if passed {
        out.bytes(b"; the wake has passed");
    }
}
