// The calls of a link on a row of arguments: what stands between the calls and the programs. Each
// promises its call's definition at what the row holds. No function has a `requires`.
#![tactic(auto)]

ghost use Rattle.std.specs.Prelude.{◌≡◌, []};
ghost use Rattle.answer.specs.Answers.{Answers};
ghost use Rattle.text_words.specs.Calls.{call_no};
ghost use Rattle.text_calls.specs.Calls.{open_on, poll_on, proof_at, frame_on, target_on, start_at, reply_on, sent_on, wake_on, status_on, answer_on, left_on};

use answer::Answer;
use call_read::{Shown, Woke};
use call_reply::StartReply;
use frame_slots::FrameProof;
use settings::Config;
use state::{Profile, State};
use text_args::ARGS;
use text_words::Call;

pub mod place;

// A link: its state, and what stays the same over its calls.
#[derive(Clone, Copy)]
pub struct Link {
    pub state: State,
    pub cfg: Config,
    pub profile: Profile,
}

// A fresh link. The state at hand is not read.
#[tactic(auto, unfolding(crate::specs::Calls::open_on))]
pub fn open(link: Link, a: &[u64; ARGS], log: &mut [u64; 768]) -> Answer
    ensures { Answers (open_on link a.now) result log.old log.new }
{
    call_open::open(
        link.cfg,
        link.profile,
        text_args::flag(a, place::OPEN_ROLE),
        text_args::number(a, place::OPEN_TRANSPORT),
        text_args::index(a, place::OPEN_LEASE),
        text_args::flag(a, place::OPEN_WORKERS),
        text_args::signed(a, place::OPEN_SPREAD),
        text_args::number(a, place::OPEN_NOW),
        log,
    )
}

#[tactic(auto, unfolding(crate::specs::Calls::poll_on))]
pub fn poll(link: Link, a: &[u64; ARGS], log: &mut [u64; 768]) -> Answer
    ensures { Answers (poll_on link a.now) result log.old log.new }
{
    poll::poll(
        link.state,
        link.cfg,
        link.profile,
        text_args::number(a, place::POLL_NOW),
        text_args::flag(a, place::POLL_WORKERS),
        text_args::signed(a, place::POLL_SPREAD),
        text_args::extra(a, place::POLL_EXTRA),
        log,
    )
}

// A frame's plaintext is at the front of the source; the target takes what is delivered.
#[tactic(auto, unfolding(crate::specs::Calls::frame_on, crate::specs::Calls::target_on))]
pub fn frame(
    link: Link,
    a: &[u64; ARGS],
    source: &[u8],
    target: &mut [u8],
    log: &mut [u64; 768],
) -> Answer
    ensures frame { Answers (frame_on link a.now source.now target.old) result log.old log.new }
    ensures target { target.new ≡ target_on link a.now source.now target.old }
{
    frame::frame(
        link.state,
        link.cfg,
        link.profile,
        text_args::number(a, place::FRAME_NOW),
        text_args::flag(a, place::FRAME_WORKERS),
        text_args::signed(a, place::FRAME_SPREAD),
        frame_proof(a),
        text_args::size(a, place::FRAME_BODY),
        source,
        target,
        log,
    )
}

#[tactic(auto, unfolding(crate::specs::Calls::proof_at))]
fn frame_proof(a: &[u64; ARGS]) -> FrameProof
    ensures { result ≡ proof_at a.now }
{
    FrameProof {
        tag: text_args::number(a, place::FRAME_TAG),
        slot: text_args::byte(a, place::FRAME_SLOT),
        counter: text_args::number(a, place::FRAME_COUNTER),
        k: text_args::flag(a, place::FRAME_K),
        len: text_args::size(a, place::FRAME_LEN),
        probe: text_args::flag(a, place::FRAME_PROBE),
    }
}

#[tactic(auto, unfolding(crate::specs::Calls::reply_on))]
pub fn reply(link: Link, a: &[u64; ARGS]) -> Answer
    ensures { Answers (reply_on link a.now) result [] [] }
{
    call_reply::reply(
        link.state,
        link.cfg,
        link.profile,
        text_args::number(a, place::REPLY_NOW),
        start_reply(a),
    )
}

#[tactic(auto, unfolding(crate::specs::Calls::start_at))]
fn start_reply(a: &[u64; ARGS]) -> StartReply
    ensures { result ≡ start_at a.now }
{
    StartReply {
        opened: text_args::flag(a, place::REPLY_OPENED),
        hs: text_args::number(a, place::REPLY_HS),
        msg: text_args::number(a, place::REPLY_MSG),
        transport: text_args::number(a, place::REPLY_TRANSPORT),
        lease: text_args::index(a, place::REPLY_LEASE),
    }
}

#[tactic(auto, unfolding(crate::specs::Calls::sent_on))]
pub fn sent(link: Link, a: &[u64; ARGS]) -> Answer
    ensures { Answers (sent_on link a.now) result [] [] }
{
    call_sent::told(
        link.state,
        text_args::number(a, place::SENT_NOW),
        text_args::number(a, place::SENT_COUNT),
    )
}

#[tactic(auto, unfolding(crate::specs::Calls::wake_on))]
pub fn wake(link: Link) -> Woke
    ensures { result ≡ wake_on link }
{
    call_read::wake(link.state, link.cfg, link.profile)
}

#[tactic(auto, unfolding(crate::specs::Calls::status_on))]
pub fn status(link: Link, a: &[u64; ARGS]) -> Shown
    ensures { result ≡ status_on link a.now }
{
    call_read::status(
        link.state,
        link.cfg,
        link.profile,
        text_args::number(a, place::STATUS_NOW),
    )
}

// The call, among those that hand a state back; any other is taken for a notice. Only a frame reads the
// source and writes to the target.
#[tactic(auto, unfolding(crate::specs::Calls::answer_on, crate::specs::Calls::left_on))]
pub fn answer(
    link: Link,
    call: Call,
    a: &[u64; ARGS],
    source: &[u8],
    target: &mut [u8],
    log: &mut [u64; 768],
) -> Answer
    ensures answer { Answers (answer_on (call_no call) link a.now source.now target.old) result log.old log.new }
    ensures target { target.new ≡ left_on (call_no call) link a.now source.now target.old }
{
    match call {
        Call::Open => open(link, a, log),
        Call::Poll => poll(link, a, log),
        Call::Frame => frame(link, a, source, target, log),
        Call::Reply => reply(link, a),
        Call::Sent => sent(link, a),
        _ => text_notices::notice(link.state, link.cfg, link.profile, call, a, log),
    }
}
