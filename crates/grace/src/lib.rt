// The probe grace (`grace` of machine.rs).
#![tactic(auto)]

ghost use Rattle.std.specs.Prelude.{◌≡◌};
ghost use Rattle.grace.specs.Grace.{grace as grace_of};

use settings::Config;
use state::Memory;

// The probe grace: twice the larger of the handshake and session round trips, at least one second,
// capped so the last probe plus the grace fits inside the confirmation window.
#[tactic(auto, using(time::proofs::Std::std_words), unfolding(crate::specs::Grace::grace))]
pub fn grace(m: Memory, cfg: Config) -> u64
    ensures { result ≡ grace_of m cfg }
{
    let handshake = m.hs_rtt.get().unwrap_or(0);
    let session = m.srtt.get().unwrap_or(0);
    let wait = handshake.max(session).saturating_mul(2).max(1000);
    wait.min(params::grace(cfg))
}
