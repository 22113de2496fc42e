// A sample of each record that crosses to Rust, every field with a number or a flag of its own
// within its record: a caller that lays a record out differently reads something else.
//
// Each record is written out, field by field: the numbers of its fields are all there is to say, and one function
// for several records would give each field of each of them as an argument.
#![tactic(auto)]

ghost use Rattle.std.specs.Prelude.{◌≡◌};
ghost use Rattle.link_sample.specs.Sample.{rungs_of, last_of, repeats_of, keys_of, held_of, kept_of, own_of, ready_of, theirs_of, turn_of, waiting_of, facts_of, whole_of, values_of, flags_of, beside_of, proof_of, answer_of};

use call_reply::StartReply;
use candidates::Candidates;
use cycle::{Attempt, Cycle, PendI, PendR};
use epoch::{Drain, Epoch, Final, Ids, Index, MayEpoch, MayLadder};
use frame_slots::FrameProof;
use ladder::{Ladder, Schedule};
use numbers::cycle::Stage;
use numbers::slot::Slot;
use numbers::wait::Wait;
use settings::Config;
use state::{Bit, Given, Memory, Profile, State};
use time::When;

#[tactic(auto, unfolding(crate::specs::Sample::rungs_of))]
pub fn rungs() -> Ladder
    ensures { result ≡ rungs_of }
{
    let sched = Schedule {
        at: [2; ladder::MAX_RUNGS],
        keepalive: 3,
        len: 4,
    };
    Ladder {
        origin: 1,
        sched,
        next: 5,
    }
}

#[tactic(auto, unfolding(crate::specs::Sample::last_of))]
pub fn last() -> Final
    ensures { result ≡ last_of }
{
    Final {
        some: true,
        msg: 1,
        ladder: rungs(),
    }
}

#[tactic(auto, unfolding(crate::specs::Sample::repeats_of))]
pub fn repeats() -> MayLadder
    ensures { result ≡ repeats_of }
{
    MayLadder {
        some: true,
        ladder: rungs(),
    }
}

#[tactic(auto, unfolding(crate::specs::Sample::keys_of))]
pub fn keys() -> Epoch
    ensures { result ≡ keys_of }
{
    let ids = Ids {
        lease: Index {
            some: true,
            index: 4,
        },
        theirs: Index {
            some: true,
            index: 5,
        },
        transport: 6,
    };
    Epoch {
        tag: 1,
        session: 2,
        sent: 3,
        ids,
        k: true,
        responder: false,
        base: When::of(7),
        started: 8,
        route: When::of(9),
        ext: 10,
        delegated: true,
        floor: When::of(11),
        heard: When::of(12),
        moved: When::of(13),
        assumed: false,
        fin: last(),
        elicit: repeats(),
        prompted: When::of(14),
    }
}

#[tactic(auto, unfolding(crate::specs::Sample::held_of))]
pub fn held() -> MayEpoch
    ensures { result ≡ held_of }
{
    MayEpoch {
        some: true,
        ep: keys(),
    }
}

#[tactic(auto, unfolding(crate::specs::Sample::kept_of))]
pub fn kept() -> Drain
    ensures { result ≡ kept_of }
{
    Drain {
        some: true,
        ep: keys(),
        deadline: 1,
        evidenced: false,
    }
}

#[tactic(auto, unfolding(crate::specs::Sample::own_of))]
pub fn own() -> Attempt
    ensures { result ≡ own_of }
{
    Attempt {
        hs: 1,
        out: 2,
        lease: Index {
            some: true,
            index: 3,
        },
        transport: 4,
        first: 5,
        ladder: rungs(),
        deadline: 6,
        resent: true,
    }
}

#[tactic(auto, unfolding(crate::specs::Sample::ready_of))]
pub fn ready() -> PendI
    ensures { result ≡ ready_of }
{
    PendI {
        ep: keys(),
        wait: Wait::Evidence.number(),
        deadline: 2,
        restart: true,
        fin: last(),
        probes: repeats(),
        probed: When::of(3),
        stayed: false,
        reverted: true,
    }
}

#[tactic(auto, unfolding(crate::specs::Sample::theirs_of))]
pub fn theirs() -> PendR
    ensures { result ≡ theirs_of }
{
    PendR {
        ep: keys(),
        deadline: 1,
        restart: true,
        answer: When::of(2),
    }
}

#[tactic(auto, unfolding(crate::specs::Sample::turn_of))]
pub fn turn() -> Cycle
    ensures { result ≡ turn_of }
{
    Cycle {
        kind: Stage::Init.number(),
        init: own(),
        pendi: ready(),
        pendr: theirs(),
    }
}

#[tactic(auto, unfolding(crate::specs::Sample::waiting_of))]
pub fn waiting() -> Candidates
    ensures { result ≡ waiting_of }
{
    Candidates {
        hs: [1; 32],
        msg1: [2; 32],
        ack: [3; 32],
        carrier: [4; 32],
        route: [5; 32],
        born: [6; 32],
        deadline: [7; 32],
        bounded: [8; 32],
        bound: [9; 32],
        seq: [10; 32],
        len: 11,
        next: 12,
    }
}

#[tactic(auto, unfolding(crate::specs::Sample::facts_of))]
pub fn facts(spread: i32) -> Memory
    ensures { result ≡ facts_of spread }
{
    Memory {
        peer_epoch: When::of(1),
        peer_k: Bit {
            some: true,
            on: false,
        },
        jitter: spread,
        damp: When::of(2),
        backoff: When::of(3),
        abandons: 4,
        last_rx: When::of(5),
        rx_cur: When::of(6),
        sent_data: true,
        silence: 7,
        link_since: 8,
        last_cutover: When::of(9),
        hs_rtt: When::of(10),
        srtt: When::of(11),
        setup_rto: When::of(12),
        reachable: false,
        due: true,
    }
}

#[tactic(auto, unfolding(crate::specs::Sample::whole_of))]
pub fn whole(spread: i32) -> State
    ensures { result ≡ whole_of spread }
{
    State {
        mem: facts(spread),
        cur: held(),
        drain: kept(),
        cycle: turn(),
        cands: waiting(),
    }
}

#[tactic(auto, unfolding(crate::specs::Sample::values_of))]
pub fn values() -> Config
    ensures { result ≡ values_of }
{
    Config {
        after: 1,
        jitter: 2,
        messages: 3,
        handshake: 4,
        check: 5,
        drain: 6,
        retention: 7,
        hold: 8,
        revert: 9,
        dampening: 10,
        ttl: 11,
        young: 12,
        link_age: 13,
        session_age: 14,
        floor_link: 15,
        floor_session: 16,
        floor_cutover: 17,
        silence: 18,
        resends: 19,
        soft: 20,
        hard: 21,
        delay: 22,
        arrival: true,
    }
}

#[tactic(auto, unfolding(crate::specs::Sample::flags_of))]
pub fn flags() -> Profile
    ensures { result ≡ flags_of }
{
    Profile {
        messages: 1,
        at_proof: true,
        silence: false,
        smaller: true,
        floor: 2,
    }
}

#[tactic(auto, unfolding(crate::specs::Sample::beside_of))]
pub fn beside() -> Given
    ensures { result ≡ beside_of }
{
    Given {
        cfg: values(),
        profile: flags(),
        now: 1,
        workers: true,
        extra: 2,
    }
}

#[tactic(auto, unfolding(crate::specs::Sample::proof_of))]
pub fn proof() -> FrameProof
    ensures { result ≡ proof_of }
{
    FrameProof {
        tag: 1,
        slot: Slot::Previous.number(),
        counter: 3,
        k: true,
        len: 4,
        probe: false,
    }
}

#[tactic(auto, unfolding(crate::specs::Sample::answer_of))]
pub fn answer() -> StartReply
    ensures { result ≡ answer_of }
{
    StartReply {
        opened: true,
        hs: 1,
        msg: 2,
        transport: 3,
        lease: Index {
            some: true,
            index: 4,
        },
    }
}
