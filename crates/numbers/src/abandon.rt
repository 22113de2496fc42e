// Why an attempt or a held epoch was given up, and the number of each case: its place in `Abandon` (reason.rs).
ghost use Rattle.std.specs.Prelude.{◌≡◌};
ghost use Rattle.numbers.specs.Numbers.{abandons};
ghost use Rattle.numbers.specs.Reason.{abandon_no};

// Why an own attempt or a held epoch was given up.
#[derive(Clone, Copy, PartialEq, Eq)]
pub enum Abandon {
    // A drain reached its ceiling with no frame showing that the peer moved.
    AdoptionNotSeen,
    // A responder pending reached its hold with no frame adopting it.
    Unadopted,
    // At the confirmation deadline the peer was heard staying on its old epoch.
    PeerStayedOnOld,
    // A reverted epoch reached the end of its window unconfirmed.
    RevertUnconfirmed,
    // The own attempt reached its deadline unanswered.
    Unanswered,
    // The tie-break gave the peer's attempt precedence.
    Yielded,
    // A previous-epoch frame reverted an assumed cutover while a repair was unanswered.
    Reverted,
    // A responder pending was replaced by a newer completion of the peer.
    Superseded,
    // The machine was closed. The source's case holds why; here that is a `Close` beside it.
    Closed,
}

pub const ADOPTION_NOT_SEEN: u64 = 0;

pub const UNADOPTED: u64 = 1;

pub const PEER_STAYED_ON_OLD: u64 = 2;

pub const REVERT_UNCONFIRMED: u64 = 3;

pub const UNANSWERED: u64 = 4;

pub const YIELDED: u64 = 5;

pub const REVERTED: u64 = 6;

pub const SUPERSEDED: u64 = 7;

pub const CLOSED: u64 = 8;

impl Abandon {
    // The place in the source's list, from 0.
    pub fn number(self) -> u64
        ensures { result ≡ abandon_no self }
    {
        match self {
            Abandon::AdoptionNotSeen => ADOPTION_NOT_SEEN,
            Abandon::Unadopted => UNADOPTED,
            Abandon::PeerStayedOnOld => PEER_STAYED_ON_OLD,
            Abandon::RevertUnconfirmed => REVERT_UNCONFIRMED,
            Abandon::Unanswered => UNANSWERED,
            Abandon::Yielded => YIELDED,
            Abandon::Reverted => REVERTED,
            Abandon::Superseded => SUPERSEDED,
            Abandon::Closed => CLOSED,
        }
    }
}

// All of them, in order.
pub fn all() -> [u64; 9]
    ensures { result ≡ abandons }
{
    [
        ADOPTION_NOT_SEEN,
        UNADOPTED,
        PEER_STAYED_ON_OLD,
        REVERT_UNCONFIRMED,
        UNANSWERED,
        YIELDED,
        REVERTED,
        SUPERSEDED,
        CLOSED,
    ]
}
