// A frame that authenticated: `frame` of machine.rs, and the refusals that concern a frame alone. The place of the
// plaintext and the two buffers stand one by one, as C hands them over (frame_deliver `deliver`).
#![tactic(auto)]

ghost use Rattle.std.specs.Prelude.{◌≡◌};
ghost use Rattle.time.specs.Options.{option_of};
ghost use Rattle.events.specs.Told.{Tells};
ghost use Rattle.refusal.specs.Refused.{refused_of};
ghost use Rattle.frame_slots.specs.Frame.{Did, slot_tag, frame_back, ended_out, pend_of, pending_frame, current_frame, previous_frame, frame_of};

use cutover::Pend;
use cycle::Cycle;
use epoch::{Epoch, Final};
use events::Log;
use numbers::cycle::Stage;
use numbers::evidence::Evidence;
use numbers::slot::Slot;
use refusal::Refusal;
use state::{Given, State};

// A frame that authenticated under one held epoch, by its slot (`numbers::slot`), and passed its window.
// It crosses to C, so the slot is a number.
#[repr(C)]
#[derive(Clone, Copy)]
pub struct FrameProof {
    pub tag: u64,
    pub slot: u8,
    pub counter: u64,
    pub k: bool,
    // The plaintext's length; the plaintext is at the front of the source buffer.
    pub len: usize,
    pub probe: bool,
}

// The tag of the epoch that a slot holds.
#[tactic(auto, using(crate::proofs::Tags::tag_held), unfolding(crate::specs::Frame::slot_tag))]
fn slot_tag(s: &State, slot: u8) -> Option<u64>
    ensures { result ≡ option_of (slot_tag s.now slot) }
{
    match Slot::of(slot) {
        Some(Slot::Current) => s.cur.tag(),
        Some(Slot::Pending) => s.cycle.pending_tag(),
        Some(Slot::Previous) => s.drain.tag(),
        None => None,
    }
}

// Sent back where the slot holds no epoch, or where the tag is not that epoch's.
#[tactic(auto, unfolding(crate::specs::Frame::frame_back))]
pub fn frame_back(s: &State, slot: u8, tag: u64) -> Result<(), Refusal>
    ensures { refused_of result ≡ record { number = frame_back s.now slot tag; place = 0 } }
{
    match slot_tag(s, slot) {
        Some(held) if held == tag => Ok(()),
        Some(_) => Err(Refusal::Tag),
        None => Err(Refusal::Slot),
    }
}

// A pending epoch whose answer is held ends with it in the replay record.
#[tactic(auto, unfolding(crate::specs::Frame::ended_out))]
fn end_pending(c: Cycle, log: &mut Log)
    ensures { Tells (ended_out c) log.old log.new }
{
    if c.stage() == Stage::PendR && c.pendr.answer.some {
        log.ended(c.pendr.ep.tag);
    }
}

// The pending epoch taken out of its cycle: the frame that adopts a responder's fixes its key bit.
#[tactic(auto, unfolding(crate::specs::Frame::pend_of))]
fn pend_of(c: Cycle, k: bool) -> Pend
    ensures { result ≡ pend_of c k }
{
    if c.stage() == Stage::PendR {
        let ep = c.pendr.ep;
        Pend {
            ep: Epoch { k, ..ep },
            restart: c.pendr.restart,
            fin: Final {
                some: false,
                ..ep.fin
            },
        }
    } else {
        Pend {
            ep: c.pendi.ep,
            restart: c.pendi.restart,
            fin: c.pendi.fin,
        }
    }
}

// A frame under the pending epoch makes it current.
#[tactic(auto, using(retire::proofs::Told::tells_then), unfolding(crate::specs::Frame::pending_frame))]
fn frame_pending(
    s: State,
    g: Given,
    spread: i32,
    p: FrameProof,
    body: usize,
    source: &[u8],
    target: &mut [u8],
    log: &mut Log,
) -> State
    ensures { Did (pending_frame s g spread p body source.now target.old) target.new log.old result log.new }
{
    end_pending(s.cycle, log);
    let pend = pend_of(s.cycle, p.k);
    let state = cutover::cutover(s, g, spread, pend, Evidence::Frame, p.k, log);
    let floor = g.profile.floor;
    frame_deliver::deliver(
        Slot::Current,
        pend.ep.tag,
        body,
        p.len,
        floor,
        source,
        target,
        log,
    );
    state
}

// A frame under the current epoch.
#[tactic(auto, using(retire::proofs::Told::tells_then), unfolding(crate::specs::Frame::current_frame))]
fn frame_current(
    s: State,
    g: Given,
    p: FrameProof,
    body: usize,
    source: &[u8],
    target: &mut [u8],
    log: &mut Log,
) -> State
    ensures { Did (current_frame s g p body source.now target.old) target.new log.old result log.new }
{
    let floor = g.profile.floor;
    frame_deliver::deliver(
        Slot::Current,
        p.tag,
        body,
        p.len,
        floor,
        source,
        target,
        log,
    );
    frame_hear::heard_current(s, g, p.k, p.probe, log)
}

// A frame under the previous epoch.
#[tactic(auto, using(retire::proofs::Told::tells_then), unfolding(crate::specs::Frame::previous_frame))]
fn frame_previous(
    s: State,
    g: Given,
    p: FrameProof,
    body: usize,
    source: &[u8],
    target: &mut [u8],
    log: &mut Log,
) -> State
    ensures { Did (previous_frame s g p body source.now target.old) target.new log.old result log.new }
{
    let floor = g.profile.floor;
    frame_deliver::deliver(
        Slot::Previous,
        p.tag,
        body,
        p.len,
        floor,
        source,
        target,
        log,
    );
    frame_hear::heard_previous(s, g, log)
}

// A frame that no refusal sends back.
#[tactic(auto, using(retire::proofs::Told::tells_then), unfolding(crate::specs::Frame::frame_of, crate::specs::Frame::slot_frame))]
pub fn frame_accepted(
    s: State,
    g: Given,
    spread: i32,
    p: FrameProof,
    body: usize,
    source: &[u8],
    target: &mut [u8],
    log: &mut Log,
) -> State
    ensures { Did (frame_of s g spread p body source.now target.old) target.new log.old result log.new }
{
    log.mark(p.tag, p.counter);
    match Slot::of(p.slot) {
        Some(Slot::Pending) => frame_pending(s, g, spread, p, body, source, target, log),
        Some(Slot::Current) => frame_current(s, g, p, body, source, target, log),
        Some(Slot::Previous) | None => frame_previous(s, g, p, body, source, target, log),
    }
}
