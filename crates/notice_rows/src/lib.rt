// What a decrypt worker and the path tell, on the whole state: the cases `Worker`, `Delegated`,
// `Undelegated`, `DataSent` and `Path` of machine.rs, each with what `judge` rejects before it.
#![tactic(auto)]

ghost use Rattle.std.specs.Prelude.{◌≡◌, Bool};
ghost use Rattle.time.specs.Pick.{pick};
ghost use Rattle.numbers.specs.Cases.{gives_current, gives_previous, gives_pending};
ghost use Rattle.numbers.specs.Reason.{reason_no};
ghost use Rattle.epoch.specs.Held.{is_tag};
ghost use Rattle.frame_hear.specs.Hear.{Did};
ghost use Rattle.notice_rows.specs.Rows.{is_pending, rejected, put_recv, put_current, put_previous, raised, raised_current, raised_previous, worker_of, already as already_of, handed, delegated_of, undelegated_of, data_mem, path_mem};

use events::Log;
use numbers::reason::Reason;
use numbers::slot::Slot;
use state::{Given, Memory, State};
use time::When;

// The slot that holds the epoch of `tag`: the current one is asked first, then the drained and the pending
// one.
#[tactic(auto, unfolding(crate::specs::Rows::is_pending))]
fn slot_of(s: &State, tag: u64) -> Option<Slot>
    ensures current { is_tag s.now.cur.some s.now.cur.ep.tag tag ≡ gives_current result }
    ensures previous { pick (is_tag s.now.cur.some s.now.cur.ep.tag tag) Bool.false (is_tag s.now.drain.some s.now.drain.ep.tag tag) ≡ gives_previous result }
    ensures pending { pick (is_tag s.now.cur.some s.now.cur.ep.tag tag) Bool.false (pick (is_tag s.now.drain.some s.now.drain.ep.tag tag) Bool.false (is_pending s.now.cycle tag)) ≡ gives_pending result }
{
    if s.cur.is_tag(tag) {
        Some(Slot::Current)
    } else if s.drain.is_tag(tag) {
        Some(Slot::Previous)
    } else if s.cycle.is_own(tag) || s.cycle.is_peers(tag) {
        Some(Slot::Pending)
    } else {
        None
    }
}

// A reject leaves the state and tells its reason.
fn reject(s: State, reason: Reason, log: &mut Log) -> State
    ensures { Did (rejected s (reason_no reason)) log.old result log.new }
{
    log.reject(reason);
    s
}

// The highest counter that a worker reported.
#[tactic(auto, using(time::proofs::Std::std_words), unfolding(crate::specs::Rows::raised))]
fn raise(floor: When, counter: u64) -> When
    ensures { result ≡ raised floor counter }
{
    When::of(floor.get().map_or(counter, |held| held.max(counter)))
}

// The two changes of an epoch are written for each slot: one field of the state in each, so a function of
// the slot would be as long.

// `epoch_mut(Current)`, its floor raised to the counter.
#[tactic(auto, unfolding(crate::specs::Rows::raised_current))]
fn raise_current(mut s: State, counter: u64) -> State
    ensures { result ≡ raised_current s counter }
{
    s.cur.ep.floor = raise(s.cur.ep.floor, counter);
    s
}

// `epoch_mut(Previous)`, its floor raised to the counter.
#[tactic(auto, unfolding(crate::specs::Rows::raised_previous))]
fn raise_previous(mut s: State, counter: u64) -> State
    ensures { result ≡ raised_previous s counter }
{
    s.drain.ep.floor = raise(s.drain.ep.floor, counter);
    s
}

// A worker authenticated a frame under `tag`. Its epoch is heard as a frame's is, and a worker never
// reports a probe.
#[tactic(auto, unfolding(crate::specs::Rows::worker_of, crate::specs::Rows::by_slot))]
pub fn worker(s: State, g: Given, tag: u64, k: bool, counter: u64, log: &mut Log) -> State
    ensures { Did (worker_of s g tag k counter) log.old result log.new }
{
    match slot_of(&s, tag) {
        Some(Slot::Current) => {
            frame_hear::heard_current(raise_current(s, counter), g, k, false, log)
        }
        Some(Slot::Previous) => frame_hear::heard_previous(raise_previous(s, counter), g, log),
        Some(Slot::Pending) => reject(s, Reason::NotDelegated, log),
        None => reject(s, Reason::StaleTag, log),
    }
}

// Whether the receive half is already where the notice puts it: with a worker, or here.
#[tactic(auto, unfolding(crate::specs::Rows::already))]
fn already(delegated: bool, on: bool) -> bool
    ensures { result ≡ already_of delegated on }
{
    delegated == on
}

// `epoch_mut(Current)`, its receive half with a worker or here.
fn put_current(mut s: State, on: bool) -> State
    ensures { result ≡ put_current s (put_recv s.cur.ep on) }
{
    s.cur.ep.delegated = on;
    s
}

// `epoch_mut(Previous)`, its receive half with a worker or here.
fn put_previous(mut s: State, on: bool) -> State
    ensures { result ≡ put_previous s (put_recv s.drain.ep on) }
{
    s.drain.ep.delegated = on;
    s
}

// The receive half of the epoch of `tag` is with a worker from now on, or here. `same` rejects one that
// is so already, `early` a pending epoch, which is never offered.
#[tactic(auto, unfolding(crate::specs::Rows::handed, crate::specs::Rows::by_slot))]
fn hand(s: State, tag: u64, on: bool, same: Reason, early: Reason, log: &mut Log) -> State
    ensures { Did (handed s tag on (reason_no same) (reason_no early)) log.old result log.new }
{
    match slot_of(&s, tag) {
        Some(Slot::Current) if already(s.cur.ep.delegated, on) => reject(s, same, log),
        Some(Slot::Current) => put_current(s, on),
        Some(Slot::Previous) if already(s.drain.ep.delegated, on) => reject(s, same, log),
        Some(Slot::Previous) => put_previous(s, on),
        Some(Slot::Pending) => reject(s, early, log),
        None => reject(s, Reason::StaleTag, log),
    }
}

// A worker accepted the receive copy of the epoch of `tag`.
pub fn delegated(s: State, tag: u64, log: &mut Log) -> State
    ensures { Did (delegated_of s tag) log.old result log.new }
{
    let same = Reason::AlreadyDelegated;
    hand(s, tag, true, same, Reason::NotOffered, log)
}

// The worker that held the epoch of `tag` is gone.
pub fn undelegated(s: State, tag: u64, log: &mut Log) -> State
    ensures { Did (undelegated_of s tag) log.old result log.new }
{
    let reason = Reason::NotDelegated;
    hand(s, tag, false, reason, reason, log)
}

// An application message was sealed.
#[tactic(auto, unfolding(crate::specs::Rows::data_mem))]
pub fn data_sent(mut m: Memory) -> Memory
    ensures { result ≡ data_mem m }
{
    m.sent_data = true;
    m
}

// Whether a next hop exists, and the smoothed round trip if it was measured.
#[tactic(auto, unfolding(crate::specs::Rows::path_mem))]
pub fn path(mut m: Memory, reachable: bool, srtt: When) -> Memory
    ensures { result ≡ path_mem m reachable srtt }
{
    m.reachable = reachable;
    m.srtt = srtt;
    m
}
