// What a list that gives no others begins with.
ghost use Rattle.std.specs.Prelude.{◌≡◌};
ghost use Rattle.text_records.specs.Blank.{plain, Blank};

use candidates::Candidates;
use cycle::Cycle;
use epoch::{Drain, MayEpoch};
use state::{Bit, Memory, Profile, State};
use time::When;

// The profile of a list that names none: two messages, and all else off or 0.
pub fn plain_profile() -> Profile
    ensures { result ≡ plain }
{
    Profile {
        messages: 2,
        at_proof: false,
        silence: false,
        smaller: false,
        floor: 0,
    }
}

// A state in which nothing is there, and every number is 0.
pub fn blank_state() -> State
    ensures { Blank result }
{
    State {
        mem: MEMORY,
        cur: MayEpoch::NONE,
        drain: Drain::NONE,
        cycle: Cycle::IDLE,
        cands: Candidates::NONE,
    }
}

const MEMORY: Memory = Memory {
    peer_epoch: When::NONE,
    peer_k: Bit::NONE,
    jitter: 0,
    damp: When::NONE,
    backoff: When::NONE,
    abandons: 0,
    last_rx: When::NONE,
    rx_cur: When::NONE,
    sent_data: false,
    silence: 0,
    link_since: 0,
    last_cutover: When::NONE,
    hs_rtt: When::NONE,
    srtt: When::NONE,
    setup_rto: When::NONE,
    reachable: false,
    due: false,
};
