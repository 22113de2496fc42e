// Calls on a link, and what it tells: call number, instant, name and two columns, and the words behind
// them where they are asked for. No function has a `requires`. The output and the head stand one by one: of a struct of
// both the clauses would name the fields in place of the arguments.
#![tactic(auto)]

ghost use Rattle.std.specs.Prelude.{◌≡◌, None, [], ◌∷◌};
ghost use Rattle.text_lines.specs.Puts.{Puts, Begins};
ghost use Rattle.text_words.specs.declared.Call.TheVariants.{Frame, Wake, Status};
ghost use Rattle.text_words.specs.Calls.{call_no};
ghost use Rattle.text_calls.specs.Calls.{answer_on, wake_on, status_on};
ghost use Rattle.runs_telling.specs.Told.{Adds, Hands, Refuses, Shows, Wakes, head_text};

use call_read::{Shown, Woke};
use state::State;
use text_args::ARGS;
use text_calls::{Link, place};
use text_events::Told;
use text_lines::Output;
use text_lists::{List, Table};
use text_words::Call;

// The number of a call and its instant, and whether its lines are explained.
#[derive(Clone, Copy)]
pub struct Head {
    pub call: u64,
    pub time: u64,
    pub explain: bool,
}

// Writes what a call tells, and answers the state that it leaves where it is accepted and hands one back.
pub fn answer(
    out: &mut Output<'_, '_, impl Print>,
    link: Link,
    head: Head,
    call: Call,
    a: &[u64; ARGS],
) -> Option<State>
    ensures wake { call ≡ Wake → (result ≡ None) × (Wakes head (wake_on link) out.old out.new) }
    ensures status { call ≡ Status → (result ≡ None) × (Shows head (status_on link a.now) out.old out.new) }
    ensures frame { call ≡ Frame → Begins [] out.old out.new }
    ensures hands { (call ≡ Frame → ⊥) → (call ≡ Wake → ⊥) → (call ≡ Status → ⊥) → Hands head (answer_on (call_no call) link a.now (0 ∷ []) (0 ∷ [])) result out.old out.new }
{
    match call {
        Call::Frame => frame(out, link, head, a),
        Call::Wake => {
            write_wake(out, head, text_calls::wake(link));
            None
        }
        Call::Status => {
            write_status(out, head, text_calls::status(link, a));
            None
        }
        _ => hand(out, link, head, call, a, &[0], &mut [0]),
    }
}

// Both buffers are filled with 0; their lengths are arguments.
fn frame(
    out: &mut Output<'_, '_, impl Print>,
    link: Link,
    head: Head,
    a: &[u64; ARGS],
) -> Option<State>
    ensures { Begins [] out.old out.new }
{
    let source = [0u8; 65536];
    let mut target = [0u8; 65536];
    let n = text_args::size(a, place::FRAME_SOURCE).min(65536);
    let m = text_args::size(a, place::FRAME_TARGET).min(65536);
    hand(
        out,
        link,
        head,
        Call::Frame,
        a,
        &source[..n],
        &mut target[..m],
    )
}

// A call that hands a state back.
fn hand(
    out: &mut Output<'_, '_, impl Print>,
    link: Link,
    head: Head,
    call: Call,
    a: &[u64; ARGS],
    source: &[u8],
    target: &mut [u8],
) -> Option<State>
    ensures { Hands head (answer_on (call_no call) link a.now source.now target.old) result out.old out.new }
{
    let mut log = [0u64; 768];
    let r = text_calls::answer(link, call, a, source, target, &mut log);
    if r.number != 0 {
        refused(out, head, r.number, r.place);
        return None;
    }
    for words in log.chunks(8).take(r.len) {
        write_event(out, head, words);
    }
    Some(r.state)
}

fn write_event(out: &mut Output<'_, '_, impl Print>, head: Head, words: &[u64])
    ensures { Begins (head_text head (32 ∷ [])) out.old out.new }
{
    begin(out, head, b" ");
    Told::new(words).write_explained(out, head.explain);
    out.bytes(b"\n");
}

// The number of a refusal and the place of its check, as C's answers hold them.
fn refused(out: &mut Output<'_, '_, impl Print>, head: Head, number: u8, place: u8)
    ensures { Refuses head number place out.old out.new }
{
    begin(out, head, b" refused");
    out.spaced(u64::from(number));
    out.spaced(u64::from(place));
    explain_refused(out, head, number, place);
    out.bytes(b"\n");
}

fn explain_refused(out: &mut Output<'_, '_, impl Print>, head: Head, number: u8, place: u8)
    ensures { Adds head.explain out.old out.new }
{
    if head.explain {
        text_events::write_refused(out, u64::from(number), u64::from(place));
    }
}

fn write_wake(out: &mut Output<'_, '_, impl Print>, head: Head, r: Woke)
    ensures { Wakes head r out.old out.new }
{
    if r.number != 0 {
        return refused(out, head, r.number, r.place);
    }
    begin(out, head, b" wake");
    out.spaced_or(r.at.get(), b" none");
    out.bytes(b" 0\n");
}

// The link line: current tag, cycle kind, wake and quiet time.
fn write_status(out: &mut Output<'_, '_, impl Print>, head: Head, r: Shown)
    ensures { Shows head r out.old out.new }
{
    if r.number != 0 {
        return refused(out, head, r.number, r.place);
    }
    begin(out, head, b" status tag");
    out.spaced_or(r.tag.get(), b" none");
    out.bytes(b" cycle ");
    text_events::write_name(out, Table::Of(List::Cycles), u64::from(r.kind));
    out.bytes(b" wake");
    out.spaced_or(r.wake.get(), b" none");
    out.bytes(b" quiet");
    out.spaced_or(r.quiet.get(), b" none");
    explain_cycle(out, head, r);
    out.bytes(b"\n");
}

fn explain_cycle(out: &mut Output<'_, '_, impl Print>, head: Head, r: Shown)
    ensures { Adds head.explain out.old out.new }
{
    if head.explain {
        let passed = r.wake.get().is_some_and(|t| t <= head.time);
        text_events::write_cycle(out, u64::from(r.kind), passed);
    }
}

// The first two columns, and what stands behind them.
fn begin(out: &mut Output<'_, '_, impl Print>, head: Head, behind: &[u8])
    ensures { Puts (head_text head behind.now) out.old out.new }
{
    out.number(head.call);
    out.spaced(head.time);
    out.bytes(behind);
}

// A state as a line that `runs` and `replay` read.
pub fn write_state(out: &mut Output<'_, '_, impl Print>, state: &State)
    ensures { out.new.buffer.ghost_name ≡ out.old.buffer.ghost_name }
{
    out.bytes(b"state ");
    text_show::write_state(out, *state);
    out.bytes(b"\n");
}
