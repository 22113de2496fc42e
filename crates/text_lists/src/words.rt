// The lists: an entry a line, in the order of the numbers, which crate `numbers` has by name.
use crate::Sign::{Case, MayNumber, MayTag, Number, Tag, Zero};
use crate::{Entry, Event, Field, List};

macro_rules! entries {
    ($($name:literal : $words:literal),* $(,)?) => {
        [$(Entry { name: $name, words: $words }),*]
    };
}

macro_rules! events {
    ($($name:literal [$($field:literal $sign:expr),*] : $words:literal),* $(,)?) => {
        [$(Event {
            entry: Entry { name: $name, words: $words },
            fields: &[$(Field { name: $field, sign: $sign }),*],
        }),*]
    };
}

// The events: name, fields and words.
pub static EVENTS: [Event; 20] = events![
    b"send" [b"msg" Number, b"message" Case(List::Messages), b"route" Zero, b"rungs" Number]:
        b"a handshake message is to be sent again",
    b"prompt" [b"tag" Tag, b"rungs" Number]:
        b"a prompt is to be sealed under the epoch and sent",
    b"deliver" [b"slot" Case(List::Slots), b"tag" Tag, b"start" Number, b"end" Number]:
        b"the plaintext of a frame is in the target buffer",
    b"bind" [b"transport" Number, b"index" Number, b"tag" MayTag, b"purpose" Case(List::Purposes)]:
        b"frames for an index are to be routed to this link",
    b"unbind" [b"transport" Number, b"index" Number]:
        b"frames for an index are to be routed here no more",
    b"delegate" [b"tag" Tag, b"transport" Number, b"index" Number, b"session" Number, b"floor" MayNumber]:
        b"the receive half is offered to a decrypt worker",
    b"revoke" [b"tag" Tag, b"transport" Number, b"index" Number]:
        b"the copy of a decrypt worker is to be withdrawn",
    b"release" [b"index" Number]:
        b"an index goes back to the allocator",
    b"installed" [b"tag" Tag, b"role" Case(List::Roles), b"evidence" Case(List::Evidence)]:
        b"the epoch became the current one",
    b"retired" [b"tag" Tag]:
        b"the keys of the epoch were discarded",
    b"reverted" [b"tag" Tag]:
        b"the epoch went back from current to pending",
    b"peerrestarted" [b"epoch" Number]:
        b"the peer restarted; what is kept about it is to be reset",
    b"rekeyed" [b"role" Case(List::Roles)]:
        b"a cutover happened; frames are sealed under new keys",
    b"replacerequested" []:
        b"never told by this link",
    b"reject" [b"reason" Case(List::Reasons)]:
        b"something was not taken; the reason says what",
    b"abandoned" [b"cause" Case(List::Causes)]:
        b"an attempt or a held epoch was given up",
    b"teardown" [b"why" Case(List::Teardowns)]:
        b"the link is to be closed",
    b"mark" [b"tag" Tag, b"counter" Number]:
        b"the counter of a frame counts as received",
    b"start" [b"kind" Case(List::Starts)]:
        b"a handshake is to be started",
    b"ended" [b"tag" Tag]:
        b"an attempt of the peer ended; its message goes on record",
];

// The kinds of messages.
pub static MESSAGES: [Entry; 5] = entries![
    b"Msg1": b"the first of two handshake messages",
    b"Msg2": b"the second of two handshake messages, the answer",
    b"Setup": b"the first of three handshake messages",
    b"Ack": b"the second of three handshake messages, the answer",
    b"Msg3": b"the third of three handshake messages",
];

// The slots of a frame.
pub static SLOTS: [Entry; 3] = entries![
    b"Current": b"the epoch that this side seals under",
    b"Pending": b"the completed epoch that waits to become current",
    b"Previous": b"the epoch that is drained after a cutover",
];

// What an index is bound for.
pub static PURPOSES: [Entry; 4] = entries![
    b"Attempt": b"the index of an own attempt that awaits its reply",
    b"Pending": b"the index of a pending epoch",
    b"Current": b"the index of the current epoch",
    b"Previous": b"the index of the epoch that is drained",
];

// The roles, 1 that of the responder.
pub static ROLES: [Entry; 2] = entries![
    b"Initiator": b"this side started the handshake of the epoch",
    b"Responder": b"this side answered the handshake of the epoch",
];

// What an epoch was installed on.
pub static EVIDENCE: [Entry; 6] = entries![
    b"Proof": b"the completed handshake proves that the peer has the keys",
    b"Frame": b"a frame of the peer came under the new epoch",
    b"Restart": b"the completed handshake showed that the peer restarted",
    b"Assumed": b"the confirmation deadline passed without evidence",
    b"Delay": b"the fixed delay of the cutover ended",
    b"First": b"the first epoch of the link",
];

// Why something was rejected.
pub static REASONS: [Entry; 31] = entries![
    b"EpochChanged": b"a first message carried another startup epoch",
    b"AnsweredBefore": b"a copy of a first message that is on record",
    b"OffLink": b"a first message came off the link while it was reachable",
    b"PendingHeld": b"a first message came while an epoch was pending",
    b"DualInitWon": b"a first message of the peer lost to the own open attempt",
    b"IndexExhausted": b"no session index was free",
    b"HandshakeWrite": b"a handshake message could not be written here",
    b"ReplyUnauthenticated": b"a reply did not authenticate as from the peer",
    b"LateReply": b"a reply came for an attempt that had completed",
    b"UnknownAttempt": b"a reply came with no attempt to answer",
    b"UnknownIndex": b"a reply named an index that is not held",
    b"SetupMalformed": b"a setup message failed its validation",
    b"TieBreakKept": b"the tie-break kept the own attempt",
    b"CandidatesFull": b"a setup message found the candidate list full",
    b"FinalNoAttempt": b"a third message came with no candidate to complete",
    b"FinalUnauthenticated": b"no candidate could read the third message",
    b"KeyMismatch": b"a handshake or a wanted key named another static key",
    b"StaleIncarnation": b"a third message came from before a restart of the peer",
    b"Replay": b"the replay window refused the counter of a frame",
    b"FrameUnauthenticated": b"no held key authenticated the frame",
    b"ShortPlaintext": b"the plaintext was below the floor or did not fit",
    b"DelegatedEpoch": b"a frame came for an epoch that a worker holds",
    b"NotEstablished": b"it came before the session was established",
    b"StaleTag": b"a report named an epoch that is no longer held",
    b"NotDelegated": b"a report named an epoch that no worker holds",
    b"AlreadyDelegated": b"a worker accepted an epoch that a worker held",
    b"NotOffered": b"a worker accepted the pending epoch, which is not offered",
    b"AttemptInFlight": b"an open came while the own first attempt was in flight",
    b"AlreadyEstablished": b"an open came on an established session",
    b"CandidateExpired": b"a setup of the peer was not completed by its deadline",
    b"NotRekey": b"a completion was handed over that was not a rekey",
];

// Why an attempt or an epoch was abandoned.
pub static CAUSES: [Entry; 9] = entries![
    b"AdoptionNotSeen": b"the drain ended and no frame showed that the peer moved",
    b"Unadopted": b"no frame came under the epoch of the peer by its deadline",
    b"PeerStayedOnOld": b"the peer was heard staying on its old epoch",
    b"RevertUnconfirmed": b"no frame came under the reverted epoch by its deadline",
    b"Unanswered": b"no answer came to the own attempt before its deadline",
    b"Yielded": b"the tie-break gave precedence to the attempt of the peer",
    b"Reverted": b"the own attempt was open when the current epoch reverted",
    b"Superseded": b"a newer completed attempt of the peer took its place",
    b"Closed": b"the link was closed",
];

// Why a link is to be closed.
pub static TEARDOWNS: [Entry; 3] = entries![
    b"OpeningIdle": b"no epoch, no attempt and no candidate is held",
    b"OpeningFailed": b"the first own attempt failed and no candidate is held",
    b"CounterExhausted": b"the sent count has reached its hard limit",
];

// What calls for a start.
pub static STARTS: [Entry; 2] = entries![
    b"Scheduled": b"the time, the sent count or a repair calls for it",
    b"Silence": b"data was sent and no frame came for the silence interval",
];

// The cycles of the link line.
pub static CYCLES: [Entry; 4] = entries![
    b"idle": b"no attempt is in progress",
    b"init": b"an own attempt is open and not yet answered",
    b"pendi": b"an own attempt is completed; its epoch is pending",
    b"pendr": b"an attempt of the peer is completed; its epoch is pending",
];

// What a completed own attempt waits for.
pub static WAITS: [Entry; 3] = entries![
    b"Held": b"for nothing; the next poll cuts over",
    b"Evidence": b"for a frame under the new epoch, or the deadline",
    b"Delay": b"for the end of a fixed delay",
];

// What sends a call back.
pub static REFUSALS: [Entry; 11] = entries![
    b"settings": b"the settings fail the check whose place is given",
    b"profile": b"a profile value lies outside its range",
    b"candidates": b"the state holds more than 32 candidates",
    b"epochs": b"a pending or drained epoch stands without a current one",
    b"repeats": b"two epochs share a tag, or two candidates a sequence number",
    b"ladders": b"a ladder has too many rungs, or stands past its last",
    b"draws": b"a draw lies outside its range",
    b"slot": b"the frame names a slot that holds no epoch",
    b"tag": b"the tag of the frame is not that of the epoch in the slot",
    b"reply": b"no start is called for, or the sent count has reached hard",
    b"count": b"the told sent count is below the held one",
];

// The check that the settings fail, by its place in refusal 1.
pub static PLACES: [Entry; 15] = entries![
    b"messages": b"messages is 0",
    b"soft": b"soft is below messages",
    b"after": b"after is not above the jitter",
    b"after": b"after is below the jitter and link_age together",
    b"after": b"after is longer than 2^32 - 1 seconds",
    b"check": b"check is 0",
    b"hold": b"hold is 0",
    b"revert": b"revert is 0",
    b"ttl": b"ttl is 0",
    b"silence": b"silence is 0",
    b"handshake": b"handshake is below check and 3 seconds together",
    b"drain": b"drain is not above 2 seconds",
    b"retention": b"retention is below drain",
    b"hold": b"hold is not above handshake and check together",
    b"hard": b"hard is not above soft",
];
