// Settings: the values that a link runs with, their defaults, and the checks that refuse them.
//
// Ported from core/src/proto/rekey/params.rs (`Config` and `Params::check`).
#![tactic(auto)]

ghost use Rattle.std.specs.Prelude.{◌≡◌, ◌+◌, leb, ltb, take, drop};
ghost use Rattle.settings.specs.Settings.{fmp as fmp_of, fsp as fsp_of, failing, first_at, place_of};
ghost use Rattle.settings.specs.Checks.{check_place, told_place};

// The settings of a link. Durations are whole milliseconds.
#[repr(C)]
#[derive(Clone, Copy)]
pub struct Config {
    // The time trigger: rekey this long after the last cutover.
    pub after: u64,
    // Whole seconds, added to `after` from -jitter to +jitter at every cutover.
    pub jitter: u16,
    // The message trigger: rekey once this many frames were sealed.
    pub messages: u64,
    // How long a handshake may take.
    pub handshake: u64,
    // The shell's tick: one check interval.
    pub check: u64,
    // How long the previous epoch is kept after evidence that the peer moved.
    pub drain: u64,
    // The ceiling on how long the previous epoch is kept.
    pub retention: u64,
    // How long a responder's pending epoch waits for the frame that adopts it.
    pub hold: u64,
    // How long a reverted epoch waits for evidence.
    pub revert: u64,
    // How long after a peer's rekey no own rekey starts.
    pub dampening: u64,
    // How long a candidate lives from its setup.
    pub ttl: u64,
    // The age below which a first-handshake attempt is young.
    pub young: u64,
    // The link age at which a first message is eligible as a rekey.
    pub link_age: u64,
    // The session age at which a first message is eligible as a rekey.
    pub session_age: u64,
    // The link age before which no own rekey starts.
    pub floor_link: u64,
    // The session age before which no own rekey starts.
    pub floor_session: u64,
    // The time since the last cutover before which no own rekey starts.
    pub floor_cutover: u64,
    // The first interval of the silence trigger.
    pub silence: u64,
    // Configured resends of a retained handshake message.
    pub resends: u8,
    // The send counter at which a rekey is forced past dampening and backoff.
    pub soft: u64,
    // The send counter at which the session is torn down.
    pub hard: u64,
    // The initiator's delay of a cutover.
    pub delay: u64,
    // Whether a responder answers on the path that the first message arrived on.
    pub arrival: bool,
}

impl Config {
    // The defaults for a link.
    pub fn fmp() -> Config
        ensures { result ≡ fmp_of }
    {
        Config {
            after: 120000,
            jitter: 15,
            messages: 65536,
            handshake: 30000,
            check: 1000,
            drain: 10000,
            retention: 120000,
            hold: 120000,
            revert: 10000,
            dampening: 30000,
            ttl: 40000,
            young: 5000,
            link_age: 30000,
            session_age: 10000,
            floor_link: 31000,
            floor_session: 31000,
            floor_cutover: 0,
            silence: 30000,
            resends: 5,
            soft: 4611686018427387904,
            hard: 18446744073708503040,
            delay: 2000,
            arrival: false,
        }
    }

    // The defaults for an end-to-end session: those of a link with other floors.
    pub fn fsp() -> Config
        ensures { result ≡ fsp_of }
    {
        Config {
            floor_link: 0,
            floor_session: 0,
            floor_cutover: 10000,
            ..Config::fmp()
        }
    }
}

// The checks that refuse settings, in file order.
#[derive(Clone, Copy, PartialEq, Eq)]
pub enum Check {
    // The message trigger is 0, or past the soft limit.
    NoMessages,
    MessagesPastSoft,
    // The time trigger is not above the jitter, is below the jitter plus the link-age floor, or is longer
    // than 2^32 - 1 seconds.
    AfterWithinJitter,
    AfterBelowFloor,
    AfterTooLong,
    // A duration that must not be 0 is 0.
    NoCheck,
    NoHold,
    NoRevert,
    NoTtl,
    NoSilence,
    // The handshake does not exceed one check by 3 seconds.
    HandshakeTooShort,
    // The drain window is not above 2 seconds.
    DrainTooShort,
    // The drain's ceiling is below the drain window.
    RetentionBelowDrain,
    // The pending hold is not above the handshake plus one check.
    HoldTooShort,
    // The soft limit is not below the hard one.
    SoftPastHard,
}

impl Check {
    // Its place in file order, from 1.
    pub fn place(self) -> u8
        ensures { result ≡ check_place self }
    {
        match self {
            Check::NoMessages => 1,
            Check::MessagesPastSoft => 2,
            Check::AfterWithinJitter => 3,
            Check::AfterBelowFloor => 4,
            Check::AfterTooLong => 5,
            Check::NoCheck => 6,
            Check::NoHold => 7,
            Check::NoRevert => 8,
            Check::NoTtl => 9,
            Check::NoSilence => 10,
            Check::HandshakeTooShort => 11,
            Check::DrainTooShort => 12,
            Check::RetentionBelowDrain => 13,
            Check::HoldTooShort => 14,
            Check::SoftPastHard => 15,
        }
    }
}

// Whether `x < a + b`; a sum that does not fit is larger.
fn below_sum(x: u64, a: u64, b: u64) -> bool
    ensures { result ≡ ltb x (a + b) }
{
    a.checked_add(b).map_or(true, |sum| x < sum)
}

// Whether `x <= a + b`, in the same way. A function of both would take the comparison as a closure.
fn upto_sum(x: u64, a: u64, b: u64) -> bool
    ensures { result ≡ leb x (a + b) }
{
    a.checked_add(b).map_or(true, |sum| x <= sum)
}

// Places 1 to 5: the triggers.
#[tactic(auto, unfolding(crate::specs::Settings::failing, crate::specs::Settings::first_at))]
fn triggers(cfg: Config) -> Result<(), Check>
    ensures { told_place result ≡ first_at 1 (take 5 (failing cfg)) }
{
    let jitter = (cfg.jitter as u64) * 1000;
    if cfg.messages == 0 {
        return Err(Check::NoMessages);
    }
    if cfg.soft < cfg.messages {
        return Err(Check::MessagesPastSoft);
    }
    if cfg.after <= jitter {
        return Err(Check::AfterWithinJitter);
    }
    if below_sum(cfg.after, jitter, cfg.link_age) {
        return Err(Check::AfterBelowFloor);
    }
    if 4294967295000 < cfg.after {
        return Err(Check::AfterTooLong);
    }
    Ok(())
}

// Places 6 to 10: durations that must not be 0.
#[tactic(auto, unfolding(crate::specs::Settings::failing, crate::specs::Settings::first_at))]
fn positives(cfg: Config) -> Result<(), Check>
    ensures { told_place result ≡ first_at 6 (take 5 (drop 5 (failing cfg))) }
{
    if cfg.check == 0 {
        return Err(Check::NoCheck);
    }
    if cfg.hold == 0 {
        return Err(Check::NoHold);
    }
    if cfg.revert == 0 {
        return Err(Check::NoRevert);
    }
    if cfg.ttl == 0 {
        return Err(Check::NoTtl);
    }
    if cfg.silence == 0 {
        return Err(Check::NoSilence);
    }
    Ok(())
}

// Places 11 to 15: windows that must hold one another, and the two limits of the send counter.
#[tactic(auto, unfolding(crate::specs::Settings::failing, crate::specs::Settings::first_at))]
fn windows(cfg: Config) -> Result<(), Check>
    ensures { told_place result ≡ first_at 11 (drop 10 (failing cfg)) }
{
    if below_sum(cfg.handshake, cfg.check, 3000) {
        return Err(Check::HandshakeTooShort);
    }
    if cfg.drain <= 2000 {
        return Err(Check::DrainTooShort);
    }
    if cfg.retention < cfg.drain {
        return Err(Check::RetentionBelowDrain);
    }
    if upto_sum(cfg.hold, cfg.handshake, cfg.check) {
        return Err(Check::HoldTooShort);
    }
    if cfg.hard <= cfg.soft {
        return Err(Check::SoftPastHard);
    }
    Ok(())
}

// Ok where no check refuses `cfg`, else the first that does.
pub fn accept(cfg: Config) -> Result<(), Check>
    ensures { told_place result ≡ place_of cfg }
{
    triggers(cfg)?;
    positives(cfg)?;
    windows(cfg)
}

// The place of the first check that refuses `cfg`, from 1; 0 where it is accepted.
pub fn place(cfg: Config) -> u8
    ensures { result ≡ place_of cfg }
{
    match accept(cfg) {
        Ok(()) => 0,
        Err(refused) => refused.place(),
    }
}
