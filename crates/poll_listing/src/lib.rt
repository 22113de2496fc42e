// What a pass lists (machine.rs: `due`, and the list that `poll` makes of it).
#![tactic(auto)]

ghost use Rattle.std.specs.Prelude.{◌≡◌, [], ◌∷◌, ◌++◌, ◌≤◌, ◌<◌, ◌+◌, length};
ghost use Rattle.time.specs.Options.{when_of};
ghost use Rattle.numbers.specs.Cases.{kind_no};
ghost use Rattle.candidates.specs.Held.{held_of};
ghost use Rattle.items.specs.Arrays.{most, item_of};
ghost use Rattle.start.specs.Start.{instants};
ghost use Rattle.wake.specs.Due.{items_at, pending_items, cycle_items, current_items};
ghost use Rattle.poll_listing.specs.Listing.{waiting_from, pass_items, Offered};

use candidates::Candidates;
use cycle::{Cycle, PendI};
use epoch::MayEpoch;
use items::{Item, Items, Listed};
use numbers::cycle::Stage;
use numbers::item::Kind;
use numbers::wait::Wait;
use state::State;

// What a pass goes by: what earlier passes listed, and the instant.
#[derive(Clone, Copy)]
struct Pass<'a> {
    listed: &'a Listed,
    time: u64,
}

impl<'a> Pass<'a> {
    // An item is put in its place where it is due and no earlier pass listed it. The room that each function here asks for
    // differs by what it offers, so it is no invariant of the list.
    fn offer(&self, items: &mut Items, item: Item)
        requires { length items.old < most }
        ensures { Offered self.now.listed.now self.now.time (item_of item ∷ []) 1 items.old items.new }
    {
        if item.at <= self.time && !self.listed.contains(item.due) {
            items.insert(item);
        }
    }

    // An item whose instant may be absent.
    fn offer_next(&self, items: &mut Items, at: Option<u64>, kind: Kind, key: u64)
        requires { length items.old < most }
        ensures { Offered self.now.listed.now self.now.time (items_at (kind_no kind) key (instants (when_of at))) 1 items.old items.new }
    {
        if let Some(at) = at {
            self.offer(items, Item::new(at, kind, key));
        }
    }

    // A ladder's next instant, and a deadline.
    fn offer_both(&self, items: &mut Items, next: Option<u64>, kind: Kind, end: Item)
        requires { length items.old + 2 ≤ most }
        ensures { Offered self.now.listed.now self.now.time (items_at (kind_no kind) end.due.key (instants (when_of next)) ++ (item_of end ∷ [])) 2 items.old items.new }
    {
        self.offer_next(items, next, kind, end.due.key);
        self.offer(items, end);
    }

    // The items of an own completed attempt, by its wait.
    fn offer_pending(&self, items: &mut Items, p: &PendI)
        requires { length items.old + 2 ≤ most }
        ensures { Offered self.now.listed.now self.now.time (pending_items p.now) 2 items.old items.new }
    {
        let end = p.deadline;
        let tag = p.ep.tag;
        match p.waits() {
            Wait::Held => self.offer(items, Item::new(end, Kind::Held, tag)),
            Wait::Evidence => {
                let next = wake::may_next(p.probes);
                self.offer_both(items, next, Kind::Probe, Item::new(end, Kind::Confirm, tag))
            }
            Wait::Delay => {
                let next = wake::fin_next(p.fin);
                self.offer_both(
                    items,
                    next,
                    Kind::Delayed,
                    Item::new(end, Kind::DelayEnd, tag),
                )
            }
        }
    }

    // The items of the cycle.
    fn offer_cycle(&self, items: &mut Items, c: &Cycle)
        requires { length items.old + 2 ≤ most }
        ensures { Offered self.now.listed.now self.now.time (cycle_items c.now) 2 items.old items.new }
    {
        match c.stage() {
            Stage::Idle => {}
            Stage::Init => {
                let next = c.init.ladder.next_at().1;
                let end = Item::new(c.init.deadline, Kind::Expire, 0);
                self.offer_both(items, next, Kind::Resend, end)
            }
            Stage::PendI => self.offer_pending(items, &c.pendi),
            Stage::PendR => {
                let end = Item::new(c.pendr.deadline, Kind::Unadopted, c.pendr.ep.tag);
                self.offer(items, end)
            }
        }
    }

    // The items of the current epoch.
    fn offer_current(&self, items: &mut Items, e: &MayEpoch)
        requires { length items.old + 2 ≤ most }
        ensures { Offered self.now.listed.now self.now.time (current_items e.now) 2 items.old items.new }
    {
        if e.some {
            self.offer_next(items, wake::fin_next(e.ep.fin), Kind::Fin, e.ep.tag);
            let elicit = wake::elicit_next(e.ep.moved.some, e.ep.elicit);
            self.offer_next(items, elicit, Kind::Elicit, e.ep.tag);
        }
    }

    // The candidates' items, in the order of arrival. A count above 32 is sent back before it is read. They are
    // arrays beside one another in the state, which crosses to C.
    fn offer_waiting(&self, items: &mut Items, c: &Candidates)
        requires { length items.old + held_of c.now.len ≤ most }
        ensures { Offered self.now.listed.now self.now.time (waiting_from c.now.deadline c.now.seq 0 (held_of c.now.len)) (held_of c.now.len) items.old items.new }
    {
        for i in 0..c.len.min(32) {
            self.offer(items, Item::new(c.deadline[i], Kind::Candidate, c.seq[i]));
        }
    }
}

// The items of a pass, in order.
pub fn collect(s: &State, now: u64, listed: &Listed) -> Items
    ensures items { result ≡ pass_items listed.now s.now now }
    ensures room { length result ≤ most }
{
    let pass = Pass { listed, time: now };
    let mut items = Items::new();
    let drain = s.drain.some.then_some(s.drain.deadline);
    pass.offer_next(&mut items, drain, Kind::Drain, s.drain.ep.tag);
    pass.offer_waiting(&mut items, &s.cands);
    pass.offer_cycle(&mut items, &s.cycle);
    pass.offer_current(&mut items, &s.cur);
    items
}
