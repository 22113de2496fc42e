// Why an input was refused, and the number of each case: its place in `Reason` (reason.rs).
ghost use Rattle.std.specs.Prelude.{◌≡◌};
ghost use Rattle.numbers.specs.Numbers.{reasons};
ghost use Rattle.numbers.specs.Reason.{reason_no, attribution_of, reachable_of};

use crate::attribution::Attribution;

// Why an input changed nothing, or, where its row says so, only the candidate list or the replay record.
#[derive(Clone, Copy, PartialEq, Eq)]
pub enum Reason {
    // An IK msg1 carried a startup epoch other than the peer's.
    EpochChanged,
    // A copy of a msg1 that the replay record holds.
    AnsweredBefore,
    // An eligible msg1 arrived off the established link while the link was reachable.
    OffLink,
    // A msg1 met a pending epoch in either role.
    PendingHeld,
    // A fresh msg1 lost the crossing to this node's unanswered attempt.
    DualInitWon,
    // No session index was free.
    IndexExhausted,
    // A handshake message could not be written locally.
    HandshakeWrite,
    // A reply failed its read on the attempt's fork, or read as another static.
    ReplyUnauthenticated,
    // A reply for an attempt that has already completed.
    LateReply,
    // A reply with no attempt to answer.
    UnknownAttempt,
    // A reply naming an index that this machine does not hold.
    UnknownIndex,
    // A setup that failed validation.
    SetupMalformed,
    // The tie-break kept this node's own attempt.
    TieBreakKept,
    // A setup found the candidate list full.
    CandidatesFull,
    // A msg3 with no candidate to complete.
    FinalNoAttempt,
    // A msg3 that no candidate's fork could read.
    FinalUnauthenticated,
    // A completed handshake or a wanted key named another static.
    KeyMismatch,
    // A msg3 from the peer's incarnation before a restart that this node recorded.
    StaleIncarnation,
    // A frame whose counter the epoch's replay window refused.
    Replay,
    // A frame that no held key authenticated.
    FrameUnauthenticated,
    // A frame whose plaintext is shorter than the layer's floor.
    ShortPlaintext,
    // A frame for an epoch that a decrypt worker holds.
    DelegatedEpoch,
    // A frame or completion before the session is established.
    NotEstablished,
    // A report names an epoch that this machine no longer holds.
    StaleTag,
    // A report names an epoch that is not delegated.
    NotDelegated,
    // A worker accepted an epoch that was already delegated.
    AlreadyDelegated,
    // A worker accepted the pending epoch, which is never offered.
    NotOffered,
    // `Open` while the own first attempt is in flight.
    AttemptInFlight,
    // `Open` on an established session.
    AlreadyEstablished,
    // A candidate reached its deadline.
    CandidateExpired,
    // A completion handed over with an intent other than a rekey.
    NotRekey,
}

pub const EPOCH_CHANGED: u64 = 0;

pub const ANSWERED_BEFORE: u64 = 1;

pub const OFF_LINK: u64 = 2;

pub const PENDING_HELD: u64 = 3;

pub const DUAL_INIT_WON: u64 = 4;

pub const INDEX_EXHAUSTED: u64 = 5;

pub const HANDSHAKE_WRITE: u64 = 6;

pub const REPLY_UNAUTHENTICATED: u64 = 7;

pub const LATE_REPLY: u64 = 8;

pub const UNKNOWN_ATTEMPT: u64 = 9;

pub const UNKNOWN_INDEX: u64 = 10;

pub const SETUP_MALFORMED: u64 = 11;

pub const TIE_BREAK_KEPT: u64 = 12;

pub const CANDIDATES_FULL: u64 = 13;

pub const FINAL_NO_ATTEMPT: u64 = 14;

pub const FINAL_UNAUTHENTICATED: u64 = 15;

pub const KEY_MISMATCH: u64 = 16;

pub const STALE_INCARNATION: u64 = 17;

pub const REPLAY: u64 = 18;

pub const FRAME_UNAUTHENTICATED: u64 = 19;

pub const SHORT_PLAINTEXT: u64 = 20;

pub const DELEGATED_EPOCH: u64 = 21;

pub const NOT_ESTABLISHED: u64 = 22;

pub const STALE_TAG: u64 = 23;

pub const NOT_DELEGATED: u64 = 24;

pub const ALREADY_DELEGATED: u64 = 25;

pub const NOT_OFFERED: u64 = 26;

pub const ATTEMPT_IN_FLIGHT: u64 = 27;

pub const ALREADY_ESTABLISHED: u64 = 28;

pub const CANDIDATE_EXPIRED: u64 = 29;

pub const NOT_REKEY: u64 = 30;

impl Reason {
    // The place in the source's list, from 0.
    pub fn number(self) -> u64
        ensures { result ≡ reason_no self }
    {
        match self {
            Reason::EpochChanged => EPOCH_CHANGED,
            Reason::AnsweredBefore => ANSWERED_BEFORE,
            Reason::OffLink => OFF_LINK,
            Reason::PendingHeld => PENDING_HELD,
            Reason::DualInitWon => DUAL_INIT_WON,
            Reason::IndexExhausted => INDEX_EXHAUSTED,
            Reason::HandshakeWrite => HANDSHAKE_WRITE,
            Reason::ReplyUnauthenticated => REPLY_UNAUTHENTICATED,
            Reason::LateReply => LATE_REPLY,
            Reason::UnknownAttempt => UNKNOWN_ATTEMPT,
            Reason::UnknownIndex => UNKNOWN_INDEX,
            Reason::SetupMalformed => SETUP_MALFORMED,
            Reason::TieBreakKept => TIE_BREAK_KEPT,
            Reason::CandidatesFull => CANDIDATES_FULL,
            Reason::FinalNoAttempt => FINAL_NO_ATTEMPT,
            Reason::FinalUnauthenticated => FINAL_UNAUTHENTICATED,
            Reason::KeyMismatch => KEY_MISMATCH,
            Reason::StaleIncarnation => STALE_INCARNATION,
            Reason::Replay => REPLAY,
            Reason::FrameUnauthenticated => FRAME_UNAUTHENTICATED,
            Reason::ShortPlaintext => SHORT_PLAINTEXT,
            Reason::DelegatedEpoch => DELEGATED_EPOCH,
            Reason::NotEstablished => NOT_ESTABLISHED,
            Reason::StaleTag => STALE_TAG,
            Reason::NotDelegated => NOT_DELEGATED,
            Reason::AlreadyDelegated => ALREADY_DELEGATED,
            Reason::NotOffered => NOT_OFFERED,
            Reason::AttemptInFlight => ATTEMPT_IN_FLIGHT,
            Reason::AlreadyEstablished => ALREADY_ESTABLISHED,
            Reason::CandidateExpired => CANDIDATE_EXPIRED,
            Reason::NotRekey => NOT_REKEY,
        }
    }

    // Who the outcome is attributed to. A replayed msg1 arrives off the link as readily as a genuine
    // one, and any third party can complete a candidate with its own static, so neither `OffLink`
    // nor `KeyMismatch` says anything about the peer.
    pub fn attribution(self) -> Attribution
        ensures { result ≡ attribution_of self }
    {
        match self {
            Reason::EpochChanged => Attribution::Peer,
            Reason::AnsweredBefore => Attribution::Network,
            Reason::OffLink => Attribution::Network,
            Reason::PendingHeld => Attribution::Peer,
            Reason::DualInitWon => Attribution::Peer,
            Reason::IndexExhausted => Attribution::Local,
            Reason::HandshakeWrite => Attribution::Local,
            Reason::ReplyUnauthenticated => Attribution::Network,
            Reason::LateReply => Attribution::Network,
            Reason::UnknownAttempt => Attribution::Network,
            Reason::UnknownIndex => Attribution::Network,
            Reason::SetupMalformed => Attribution::Network,
            Reason::TieBreakKept => Attribution::Peer,
            Reason::CandidatesFull => Attribution::Network,
            Reason::FinalNoAttempt => Attribution::Network,
            Reason::FinalUnauthenticated => Attribution::Network,
            Reason::KeyMismatch => Attribution::Network,
            Reason::StaleIncarnation => Attribution::Peer,
            Reason::Replay => Attribution::Network,
            Reason::FrameUnauthenticated => Attribution::Network,
            Reason::ShortPlaintext => Attribution::Peer,
            Reason::DelegatedEpoch => Attribution::Local,
            Reason::NotEstablished => Attribution::Network,
            Reason::StaleTag => Attribution::Local,
            Reason::NotDelegated => Attribution::Local,
            Reason::AlreadyDelegated => Attribution::Local,
            Reason::NotOffered => Attribution::Local,
            Reason::AttemptInFlight => Attribution::Local,
            Reason::AlreadyEstablished => Attribution::Local,
            Reason::CandidateExpired => Attribution::Network,
            Reason::NotRekey => Attribution::Local,
        }
    }

    // Whether input that has not authenticated can cause this outcome, so that it is logged at a
    // bounded rate: what anyone can send, and the tie-break.
    pub fn unauthenticated_reachable(self) -> bool
        ensures { result ≡ reachable_of self }
    {
        self.attribution() == Attribution::Network || self == Reason::TieBreakKept
    }
}

// All of them, in order.
pub fn all() -> [u64; 31]
    ensures { result ≡ reasons }
{
    [
        EPOCH_CHANGED,
        ANSWERED_BEFORE,
        OFF_LINK,
        PENDING_HELD,
        DUAL_INIT_WON,
        INDEX_EXHAUSTED,
        HANDSHAKE_WRITE,
        REPLY_UNAUTHENTICATED,
        LATE_REPLY,
        UNKNOWN_ATTEMPT,
        UNKNOWN_INDEX,
        SETUP_MALFORMED,
        TIE_BREAK_KEPT,
        CANDIDATES_FULL,
        FINAL_NO_ATTEMPT,
        FINAL_UNAUTHENTICATED,
        KEY_MISMATCH,
        STALE_INCARNATION,
        REPLAY,
        FRAME_UNAUTHENTICATED,
        SHORT_PLAINTEXT,
        DELEGATED_EPOCH,
        NOT_ESTABLISHED,
        STALE_TAG,
        NOT_DELEGATED,
        ALREADY_DELEGATED,
        NOT_OFFERED,
        ATTEMPT_IN_FLIGHT,
        ALREADY_ESTABLISHED,
        CANDIDATE_EXPIRED,
        NOT_REKEY,
    ]
}
