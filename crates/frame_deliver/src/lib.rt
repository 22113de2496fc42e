// The plaintext of a frame goes to the place that its delivery names: `deliver` of machine.rs.
#![tactic(auto)]

ghost use Rattle.std.specs.Prelude.{◌≡◌, ◌≤◌, ◌+◌, Bool};
ghost use Rattle.events.specs.Told.{Tells};
ghost use Rattle.frame_deliver.specs.Deliver.{reaches as reaches_of, deliver_out, deliver_into};

use events::Log;
use numbers::numbered::Numbered;
use numbers::reason::Reason;

// Whether `n` bytes are not below the floor and both buffers, of these lengths, reach.
#[tactic(auto, using(crate::proofs::Laws::room_left), unfolding(crate::specs::Deliver::reaches))]
fn reaches(body: usize, n: usize, floor: u64, source: usize, target: usize) -> bool
    ensures value { result ≡ reaches_of body n floor source target }
    ensures room { result ≡ Bool.true → (n ≤ source) × (body + n ≤ target) }
{
    floor <= n as u64 && n <= source && body <= target && n <= target - body
}

// The plaintext is put into the frame's buffer and delivered, unless it is shorter than the layer's
// floor or a buffer is too short: then no byte changes. The place and the two buffers stand one by one, as C hands
// them over: a struct of them would hold a `&mut`, and the clauses would name its fields in place of the arguments.
#[tactic(auto, unfolding(crate::specs::Deliver::deliver_out, crate::specs::Deliver::deliver_into))]
pub fn deliver<N: Numbered>(
    slot: N,
    tag: u64,
    body: usize,
    n: usize,
    floor: u64,
    source: &[u8],
    target: &mut [u8],
    log: &mut Log,
)
    ensures target { target.new ≡ deliver_into body n floor source.now target.old }
    ensures told { Tells (deliver_out (N.number_of slot) tag body n floor source.now target.old) log.old log.new }
{
    let slot = slot.to_number();
    if reaches(body, n, floor, source.len(), target.len()) {
        let end = body + n;
        target[body..end].copy_from_slice(&source[..n]);
        log.deliver(slot, tag, body as u64, end as u64);
    } else {
        log.reject(Reason::ShortPlaintext);
    }
}
