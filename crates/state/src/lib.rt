// The link's state, and what a call is given beside it (machine.rs). Each record may be held by Rust, so
// it is laid out as C does, and what may be absent is a flag beside the value.
#![tactic(auto)]

use candidates::Candidates;
use cycle::Cycle;
use epoch::{Drain, MayEpoch};
use settings::Config;
use time::When;

// A flag that may be absent.
#[repr(C)]
#[derive(Clone, Copy)]
pub struct Bit {
    pub some: bool,
    pub on: bool,
}

impl Bit {
    pub const NONE: Bit = Bit {
        some: false,
        on: false,
    };
}

// Facts that survive Idle, kept outside the cycle.
#[repr(C)]
#[derive(Clone, Copy)]
pub struct Memory {
    // The peer's startup epoch, eight bytes as one number, low byte first.
    pub peer_epoch: When,
    // The key-epoch bit on the peer's last authenticated current-epoch frame.
    pub peer_k: Bit,
    // The jitter drawn at the last install or cutover, whole seconds.
    pub jitter: i32,
    // Dampening ends.
    pub damp: When,
    // The abandon backoff ends.
    pub backoff: When,
    pub abandons: u8,
    // The last authenticated frame under any epoch.
    pub last_rx: When,
    // The last authenticated frame under the current epoch.
    pub rx_cur: When,
    // Data was sealed since the last current-epoch frame from the peer.
    pub sent_data: bool,
    pub silence: u8,
    pub link_since: u64,
    pub last_cutover: When,
    pub hs_rtt: When,
    pub srtt: When,
    // Karn's kept backoff for the rekey setup's first rung.
    pub setup_rto: When,
    pub reachable: bool,
    // A repair rekey is due.
    pub due: bool,
}

#[repr(C)]
#[derive(Clone, Copy)]
pub struct State {
    pub mem: Memory,
    pub cur: MayEpoch,
    pub drain: Drain,
    pub cycle: Cycle,
    pub cands: Candidates,
}

// What the profile decides: the number of handshake messages, cutover at proof, the silence
// trigger, whether this node's address is the smaller, and the shortest plaintext in bytes.
#[repr(C)]
#[derive(Clone, Copy)]
pub struct Profile {
    pub messages: u64,
    pub at_proof: bool,
    pub silence: bool,
    pub smaller: bool,
    pub floor: u64,
}

// What a call is given beside the state: settings, profile, instant, worker flag and the extra, the
// draw of an abandoned attempt in whole seconds. The spread, the draw of an install or a cutover,
// is passed by itself, as C passes it to the quiet test.
#[repr(C)]
#[derive(Clone, Copy)]
pub struct Given {
    pub cfg: Config,
    pub profile: Profile,
    pub now: u64,
    pub workers: bool,
    pub extra: u32,
}
