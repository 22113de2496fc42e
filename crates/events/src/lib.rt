// The events of an answer, written into words that the caller lends: 96 places of eight words.
//
// Ported from mod.rs (`Output`); `withdraw` and `offered` from machine.rs. An event is its number,
// then its fields in order, then zeros: `words_of` of specs/Events.antt has the words of each, and
// crate `numbers` the number of each enum's case. A `Log` holds the words and how many places are
// taken. The link has no heap and C reads the words, so they are no list of an enum.
#![tactic(auto, unfolding(crate::specs::Log::pushed, crate::specs::Queries::word_of, crate::specs::Withdraw::words_stay, crate::specs::Withdraw::sealable))]

ghost use Rattle.std.specs.Prelude.{◌≡◌, [], ◌∷◌, ◌<◌};
ghost use Rattle.time.specs.Options.{when_of};
ghost use Rattle.events.specs.Events.{Send, Prompt, Deliver, Bind, Unbind, Delegate, Revoke, Release, Installed, Retired, Reverted, PeerRestarted, Rekeyed, Reject, Abandoned, Teardown, Mark, Start, Ended};
ghost use Rattle.events.specs.Log.{at, place_of};
ghost use Rattle.events.specs.Told.{Stores, Tells};
ghost use Rattle.events.specs.Queries.{word_of, words_offer, offered_in};
ghost use Rattle.events.specs.Withdraw.{names as names_of, words_stay, withdrawn};

mod optional;

use numbers::event;
use numbers::numbered::Numbered;
pub use optional::Optional;

// The events of one answer, in the words that the caller lends.
#[derive(Drop)]
pub struct Log<'a> {
    words: &'a mut [u64; 768],
    len: usize,
}

// The number of rungs on a prompt that comes from no ladder.
pub const NO_RUNGS: u64 = 0;

impl<'a> Log<'a> {
    // No event yet.
    pub fn new(words: &'a mut [u64; 768]) -> Log<'a>
        ensures empty { result.len ≡ 0 }
        ensures words { result.words.now ≡ words.old }
        ensures same_reference { result.words.ghost_name ≡ words.entry.ghost_name }
    {
        Log { words, len: 0 }
    }

    // Events that stand in the words already: as many places are taken as the length says.
    pub fn of(words: &'a mut [u64; 768], len: usize) -> Log<'a>
        ensures taken { result.len ≡ len }
        ensures words { result.words.now ≡ words.old }
        ensures same_reference { result.words.ghost_name ≡ words.entry.ghost_name }
    {
        Log { words, len }
    }

    // How many places are taken.
    pub fn len(&self) -> usize
        ensures { result ≡ self.now.len }
    {
        self.len
    }

    // One place more; a full log stays as it is.
    pub fn push(&mut self, w: [u64; 8])
        ensures { Stores w self.old self.new }
    {
        if self.len < 96 {
            let i = self.len * 8;
            let words = &mut *self.words;
            words[i..i + 8].copy_from_slice(&w);
            self.len += 1;
        }
    }

    // A handshake message, on the established route without fallback, with the number of rungs that
    // were taken for it.
    pub fn send<N: Numbered>(&mut self, msg: u64, kind: N, rungs: u64)
        ensures { Tells (Send msg (N.number_of kind) rungs ∷ []) self.old self.new }
    {
        self.push([event::SEND, msg, kind.to_number(), rungs, 0, 0, 0, 0]);
    }

    // A frame to seal under an epoch and send, with the number of rungs that were taken for it.
    pub fn prompt(&mut self, tag: u64, rungs: u64)
        ensures { Tells (Prompt tag rungs ∷ []) self.old self.new }
    {
        self.push([event::PROMPT, tag, rungs, 0, 0, 0, 0, 0]);
    }

    // The plaintext from `start` up to `end` of the frame's buffer.
    pub fn deliver<N: Numbered>(&mut self, slot: N, tag: u64, start: u64, end: u64)
        ensures { Tells (Deliver (N.number_of slot) tag start end ∷ []) self.old self.new }
    {
        self.push([event::DELIVER, slot.to_number(), tag, start, end, 0, 0, 0]);
    }

    // Frames for an index on a transport go to this machine.
    pub fn bind<W: Optional, N: Numbered>(&mut self, transport: u64, index: u32, tag: W, purpose: N)
        ensures { Tells (Bind transport index (W.told_of tag) (N.number_of purpose) ∷ []) self.old self.new }
    {
        let tag = tag.to_told();
        self.push([
            event::BIND,
            transport,
            u64::from(index),
            u64::from(tag.some),
            tag.at,
            purpose.to_number(),
            0,
            0,
        ]);
    }

    // The binding of an index on a transport is removed.
    pub fn unbind(&mut self, transport: u64, index: u32)
        ensures { Tells (Unbind transport index ∷ []) self.old self.new }
    {
        self.push([event::UNBIND, transport, u64::from(index), 0, 0, 0, 0, 0]);
    }

    // The receive half of an epoch is offered to a decrypt worker.
    pub fn delegate<W: Optional>(
        &mut self,
        tag: u64,
        transport: u64,
        index: u32,
        session: u64,
        floor: W,
    )
        ensures { Tells (Delegate tag transport index session (W.told_of floor) ∷ []) self.old self.new }
    {
        let floor = floor.to_told();
        self.push([
            event::DELEGATE,
            tag,
            transport,
            u64::from(index),
            session,
            u64::from(floor.some),
            floor.at,
            0,
        ]);
    }

    // The worker's copy is withdrawn.
    pub fn revoke(&mut self, tag: u64, transport: u64, index: u32)
        ensures { Tells (Revoke tag transport index ∷ []) self.old self.new }
    {
        self.push([event::REVOKE, tag, transport, u64::from(index), 0, 0, 0, 0]);
    }

    // A lease's index goes back to the allocator.
    pub fn release(&mut self, index: u32)
        ensures { Tells (Release index ∷ []) self.old self.new }
    {
        self.push([event::RELEASE, u64::from(index), 0, 0, 0, 0, 0, 0]);
    }

    // An epoch became current.
    pub fn installed<N: Numbered>(&mut self, tag: u64, responder: bool, evidence: N)
        ensures { Tells (Installed tag responder (N.number_of evidence) ∷ []) self.old self.new }
    {
        self.push([
            event::INSTALLED,
            tag,
            u64::from(responder),
            evidence.to_number(),
            0,
            0,
            0,
            0,
        ]);
    }

    // An epoch's keys were discarded.
    pub fn retired(&mut self, tag: u64)
        ensures { Tells (Retired tag ∷ []) self.old self.new }
    {
        self.push([event::RETIRED, tag, 0, 0, 0, 0, 0, 0]);
    }

    // An assumed epoch went back to pending.
    pub fn reverted(&mut self, tag: u64)
        ensures { Tells (Reverted tag ∷ []) self.old self.new }
    {
        self.push([event::REVERTED, tag, 0, 0, 0, 0, 0, 0]);
    }

    // The peer restarted with a new startup epoch.
    pub fn peer_restarted(&mut self, epoch: u64)
        ensures { Tells (PeerRestarted epoch ∷ []) self.old self.new }
    {
        self.push([event::PEER_RESTARTED, epoch, 0, 0, 0, 0, 0, 0]);
    }

    // A cutover happened.
    pub fn rekeyed(&mut self, responder: bool)
        ensures { Tells (Rekeyed responder ∷ []) self.old self.new }
    {
        self.push([event::REKEYED, u64::from(responder), 0, 0, 0, 0, 0, 0]);
    }

    // An input changed nothing, or only what its row names.
    pub fn reject<N: Numbered>(&mut self, reason: N)
        ensures { Tells (Reject (N.number_of reason) ∷ []) self.old self.new }
    {
        self.push([event::REJECT, reason.to_number(), 0, 0, 0, 0, 0, 0]);
    }

    // An attempt or a held epoch was given up.
    pub fn abandoned<N: Numbered>(&mut self, cause: N)
        ensures { Tells (Abandoned (N.number_of cause) ∷ []) self.old self.new }
    {
        self.push([event::ABANDONED, cause.to_number(), 0, 0, 0, 0, 0, 0]);
    }

    // The machine is to be closed.
    pub fn teardown<N: Numbered>(&mut self, why: N)
        ensures { Tells (Teardown (N.number_of why) ∷ []) self.old self.new }
    {
        self.push([event::TEARDOWN, why.to_number(), 0, 0, 0, 0, 0, 0]);
    }

    // A frame's counter counts as received under an epoch (`mark`).
    pub fn mark(&mut self, tag: u64, counter: u64)
        ensures { Tells (Mark tag counter ∷ []) self.old self.new }
    {
        self.push([event::MARK, tag, counter, 0, 0, 0, 0, 0]);
    }

    // A handshake is to be started.
    pub fn start<N: Numbered>(&mut self, kind: N)
        ensures { Tells (Start (N.number_of kind) ∷ []) self.old self.new }
    {
        self.push([event::START, kind.to_number(), 0, 0, 0, 0, 0, 0]);
    }

    // A responder pending ended, and the msg1 that armed it enters the replay record (`PendR::end`).
    pub fn ended(&mut self, tag: u64)
        ensures { Tells (Ended tag ∷ []) self.old self.new }
    {
        self.push([event::ENDED, tag, 0, 0, 0, 0, 0, 0]);
    }

    // Whether an earlier event of this answer offered the epoch.
    pub fn offered(&self, tag: u64) -> bool
        ensures { result ≡ offered_in (at self.now.len self.now.words.now) tag }
    {
        // No `any`: its closure would need a clause for the bound of `i`.
        for i in 0..self.len.min(96) {
            if offers(place(self.words, i), tag) {
                return true;
            }
        }
        false
    }

    // Drop every prompt that names no epoch under which it may be sealed, the current one or the
    // pending one that waits for evidence: a later row of the same answer may have retired the epoch
    // that an earlier one asked a prompt under.
    pub fn withdraw(&mut self, cur: Option<u64>, pend: Option<u64>)
        ensures withdrawn { at self.new.len self.new.words.now ≡ withdrawn (when_of cur) (when_of pend) (at self.old.len self.old.words.now) }
        ensures same_reference { self.new.words.ghost_name ≡ self.old.words.ghost_name }
    {
        let n = self.len.min(96);
        self.len = 0;
        // By place: what stays is put into the words that are read.
        for i in 0..n {
            let w = place(self.words, i);
            if stays(w, cur, pend) {
                self.push(w);
            }
        }
    }
}

// Word `k` of place `i`; 0 outside.
pub fn word(log: &[u64; 768], i: usize, k: usize) -> u64
    ensures { result ≡ word_of log.now i k }
{
    if i < 96 && k < 8 { log[i * 8 + k] } else { 0 }
}

// The number of the event at place `i`; 0 outside.
pub fn kind_at(log: &[u64; 768], i: usize) -> u64
    ensures { result ≡ word_of log.now i 0 }
{
    word(log, i, 0)
}

// The words of place `i`.
fn place(log: &[u64; 768], i: usize) -> [u64; 8]
    requires { i < 96 }
    ensures { result ≡ place_of log.now i }
{
    let k = i * 8;
    let mut w = [0; 8];
    w.copy_from_slice(&log[k..k + 8]);
    w
}

// Whether these are the words of a `Delegate` of that tag.
fn offers(w: [u64; 8], tag: u64) -> bool
    ensures { result ≡ words_offer tag w }
{
    w[0] == event::DELEGATE && w[1] == tag
}

// Whether the event of these words stays: all do but a `Prompt` of no tag that may be sealed under.
fn stays(w: [u64; 8], cur: Option<u64>, pend: Option<u64>) -> bool
    ensures { result ≡ words_stay (when_of cur) (when_of pend) w }
{
    w[0] != event::PROMPT || cur == Some(w[1]) || pend == Some(w[1])
}
