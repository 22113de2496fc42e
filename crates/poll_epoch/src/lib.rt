// The rows of the poll that change the drained or the current epoch: each is lent that epoch, and tells its
// events to the log (`expire_pass` of machine.rs).
#![tactic(auto)]

ghost use Rattle.std.specs.Prelude.{◌≡◌, Bool};
ghost use Rattle.events.specs.Told.{Tells};
ghost use Rattle.poll_epoch.specs.EpochRows.{DidCur, drain_due, fin_due, elicit_due};

use epoch::{Drain, MayEpoch};
use events::Log;
use numbers::abandon::Abandon;
use numbers::message::Message;
use time::When;

// The drained epoch's deadline.
#[tactic(auto, using(retire::proofs::Told::tells_then), unfolding(crate::specs::EpochRows::drain_due))]
pub fn drain_due(d: &mut Drain, tag: u64, log: &mut Log)
    ensures { (d.new ≡ (drain_due d.old tag).drain) × Tells (drain_due d.old tag).out log.old log.new }
{
    if !d.is_tag(tag) {
        return;
    }
    retire::retire(d.ep, log);
    if !d.evidenced {
        log.abandoned(Abandon::AdoptionNotSeen);
    }
    d.some = false;
}

// A rung of the current epoch's final message; whether a repair falls due. The last rung drops the message, and
// a repair falls due if nothing was heard.
#[tactic(auto, using(ladder::proofs::Stays::none_taken), unfolding(crate::specs::EpochRows::fin_due, crate::specs::EpochRows::fin_taken))]
pub fn fin_due(cur: &mut MayEpoch, tag: u64, time: u64, log: &mut Log) -> bool
    ensures { DidCur (fin_due cur.old tag time) log.old cur.new result log.new }
{
    if cur.is_tag(tag) && cur.ep.fin.some {
        if let Some(t) = cur.ep.fin.ladder.take_lent(time) {
            log.send(cur.ep.fin.msg, Message::Msg3, t.taken);
            cur.ep.fin.some = !t.last;
            return t.last && !cur.ep.heard.some;
        }
    }
    false
}

// A prompt repeat after a cutover, until the peer is seen to move. No repair falls due by it.
#[tactic(auto, using(ladder::proofs::Stays::none_taken), unfolding(crate::specs::EpochRows::elicit_due, crate::specs::EpochRows::elicit_taken))]
pub fn elicit_due(cur: &mut MayEpoch, tag: u64, time: u64, log: &mut Log)
    ensures { DidCur (elicit_due cur.old tag time) log.old cur.new Bool.false log.new }
{
    let waits = !cur.ep.moved.some && cur.ep.elicit.some;
    if cur.is_tag(tag) && waits {
        if let Some(t) = cur.ep.elicit.ladder.take_lent(time) {
            log.prompt(tag, t.taken);
            cur.ep.elicit.some = !t.last;
            cur.ep.prompted = When::of(time);
        }
    }
}
