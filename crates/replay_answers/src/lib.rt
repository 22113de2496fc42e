// Calls answered in the replay format. No function has a `requires`.
#![tactic(auto)]

ghost use Rattle.std.specs.Prelude.{◌≡◌, [], ◌∷◌, ◌++◌};
ghost use Rattle.text_lines.specs.Puts.{Puts, number_text};
ghost use Rattle.text_words.specs.declared.Call.TheVariants.{Wake, Status};
ghost use Rattle.text_words.specs.Calls.{call_no};
ghost use Rattle.text_calls.specs.Calls.{answer_on, wake_on, status_on};
ghost use Rattle.replay_answers.specs.Told.{count_text, refused_text, woke_text, shown_text, Hands, Reads};

use call_read::{Shown, Woke};
use state::State;
use text_args::ARGS;
use text_calls::Link;
use text_events::Told;
use text_lines::Output;
use text_words::Call;

// In a run the next call gets the state that a call leaves; else each call gets the block's own, and what
// it leaves is a line of its answer.
#[derive(Clone, Copy, PartialEq, Eq)]
pub enum Kind {
    Vector,
    Run,
}

// Every call but `frame`. It answers the state that the call leaves where it is accepted and hands one
// back.
pub fn answer(
    out: &mut Output<'_, '_, impl Print>,
    link: Link,
    kind: Kind,
    call: Call,
    a: &[u64; ARGS],
) -> Option<State>
    ensures wake { call ≡ Wake → Reads (woke_text (wake_on link)) result out.old out.new }
    ensures status { call ≡ Status → Reads (shown_text (status_on link a.now)) result out.old out.new }
    ensures hands { (call ≡ Wake → ⊥) → (call ≡ Status → ⊥) → Hands (answer_on (call_no call) link a.now (0 ∷ []) (0 ∷ [])) result out.old out.new }
{
    match call {
        Call::Wake => {
            write_woke(out, text_calls::wake(link));
            None
        }
        Call::Status => {
            write_shown(out, text_calls::status(link, a));
            None
        }
        _ => hand(out, link, kind, call, a, &[0], &mut [0]),
    }
}

// A call that hands a state back.
pub fn hand(
    out: &mut Output<'_, '_, impl Print>,
    link: Link,
    kind: Kind,
    call: Call,
    a: &[u64; ARGS],
    source: &[u8],
    target: &mut [u8],
) -> Option<State>
    ensures { Hands (answer_on (call_no call) link a.now source.now target.old) result out.old out.new }
{
    let mut log = [0u64; 768];
    let r = text_calls::answer(link, call, a, source, target, &mut log);
    if r.number != 0 {
        write_refused(out, r.number, r.place);
        return None;
    }
    for words in log.chunks(8).take(r.len) {
        Told::new(words).write(out);
    }
    match call {
        Call::Poll => write_count(out, r.count),
        Call::Frame => write_buffer(out, target),
        _ => {}
    }
    if kind == Kind::Vector {
        write_state(out, &r.state);
    }
    Some(r.state)
}

fn write_count(out: &mut Output<'_, '_, impl Print>, count: usize)
    ensures { Puts (count_text count) out.old out.new }
{
    out.bytes(b"= count");
    out.spaced(count as u64);
    out.bytes(b"\n");
}

fn write_buffer(out: &mut Output<'_, '_, impl Print>, target: &[u8]) {
    out.bytes(b"= buf ");
    text_hex::write(out, target);
    out.bytes(b"\n");
}

pub fn write_state(out: &mut Output<'_, '_, impl Print>, state: &State)
    ensures { out.new.buffer.ghost_name ≡ out.old.buffer.ghost_name }
{
    out.bytes(b"= state ");
    text_show::write_state(out, *state);
    out.bytes(b"\n");
}

// A refusal by its number and the place of its check, as C's answers hold them.
fn write_refused(out: &mut Output<'_, '_, impl Print>, number: u8, place: u8)
    ensures { Puts (refused_text number place) out.old out.new }
{
    out.bytes(b"= refused");
    out.spaced(u64::from(number));
    out.spaced(u64::from(place));
    out.bytes(b"\n");
}

fn write_woke(out: &mut Output<'_, '_, impl Print>, r: Woke)
    ensures { Puts (woke_text r) out.old out.new }
{
    if r.number != 0 {
        return write_refused(out, r.number, r.place);
    }
    out.bytes(b"= wake");
    out.spaced_or(r.at.get(), b" none");
    out.bytes(b"\n");
}

fn write_shown(out: &mut Output<'_, '_, impl Print>, r: Shown)
    ensures { Puts (shown_text r) out.old out.new }
{
    if r.number != 0 {
        return write_refused(out, r.number, r.place);
    }
    out.bytes(b"= status");
    out.spaced_or(r.tag.get(), b" -");
    out.spaced(u64::from(r.kind));
    out.spaced_or(r.wake.get(), b" -");
    out.spaced_or(r.quiet.get(), b" -");
    out.bytes(b"\n");
}
