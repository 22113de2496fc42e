// An epoch: one set of transport keys and what is derived from them (epoch.rs).
//
// Every record here may be held by Rust, so each is laid out as C does. A case of the source's
// `Option` is a flag beside the value; a two-valued enum is a flag. What stands behind a flag that
// is off is no part of the state.
#![tactic(auto)]

ghost use Rattle.std.specs.Prelude.{◌≡◌, is_some, IfSome};
ghost use Rattle.std.specs.Bool.{then_some};
ghost use Rattle.epoch.specs.Held.{is_tag};

mod previous;

use ladder::Ladder;
use time::When;

// An index that may be absent: 32 bits, as the source's.
#[repr(C)]
#[derive(Clone, Copy)]
pub struct Index {
    pub some: bool,
    pub index: u32,
}

impl Index {
    pub const NONE: Index = Index {
        some: false,
        index: 0,
    };

    // The index, where there is one.
    pub fn get(self) -> Option<u32>
        ensures some { is_some result ≡ self.some }
        ensures index { IfSome result (λ n. n ≡ self.index) }
    {
        self.some.then_some(self.index)
    }
}

// The session indices of an epoch: this node's lease (its index), the peer's, and the transport
// that the binding was made on.
#[repr(C)]
#[derive(Clone, Copy)]
pub struct Ids {
    pub lease: Index,
    pub theirs: Index,
    pub transport: u64,
}

impl Ids {
    pub const NONE: Ids = Ids {
        lease: Index::NONE,
        theirs: Index::NONE,
        transport: 0,
    };
}

// A retained final message and its resend ladder, if there is one.
#[repr(C)]
#[derive(Clone, Copy)]
pub struct Final {
    pub some: bool,
    pub msg: u64,
    pub ladder: Ladder,
}

impl Final {
    pub const NONE: Final = Final {
        some: false,
        msg: 0,
        ladder: Ladder::EMPTY,
    };
}

// A ladder that may be absent.
#[repr(C)]
#[derive(Clone, Copy)]
pub struct MayLadder {
    pub some: bool,
    pub ladder: Ladder,
}

impl MayLadder {
    pub const NONE: MayLadder = MayLadder {
        some: false,
        ladder: Ladder::EMPTY,
    };
}

#[repr(C)]
#[derive(Clone, Copy)]
pub struct Epoch {
    pub tag: u64,
    pub session: u64,
    // How many frames were sealed under it, as the caller told last.
    pub sent: u64,
    pub ids: Ids,
    // The key-epoch bit.
    pub k: bool,
    // The role: the answering side of the handshake that made it, else the starting side.
    pub responder: bool,
    pub base: When,
    // The rekey-age anchor: the cutover or install instant.
    pub started: u64,
    pub route: When,
    pub ext: u64,
    // The receive half: a decrypt worker holds it, else it is here.
    pub delegated: bool,
    // The highest counter a lost decrypt worker reported.
    pub floor: When,
    // The first authenticated frame from the peer under this epoch.
    pub heard: When,
    // The first frame showing the peer seals under this epoch.
    pub moved: When,
    // Installed at a confirmation deadline without evidence.
    pub assumed: bool,
    pub fin: Final,
    // Prompt repeats after the cutover, until the peer is seen to move.
    pub elicit: MayLadder,
    // When the last prompt was sealed under this epoch.
    pub prompted: When,
}

impl Epoch {
    // Every number 0, and nothing there: what stands behind a flag that is off.
    pub const BLANK: Epoch = Epoch {
        tag: 0,
        session: 0,
        sent: 0,
        ids: Ids::NONE,
        k: false,
        responder: false,
        base: When::NONE,
        started: 0,
        route: When::NONE,
        ext: 0,
        delegated: false,
        floor: When::NONE,
        heard: When::NONE,
        moved: When::NONE,
        assumed: false,
        fin: Final::NONE,
        elicit: MayLadder::NONE,
        prompted: When::NONE,
    };
}

// The current epoch, if there is one.
#[repr(C)]
#[derive(Clone, Copy)]
pub struct MayEpoch {
    pub some: bool,
    pub ep: Epoch,
}

impl MayEpoch {
    pub const NONE: MayEpoch = MayEpoch {
        some: false,
        ep: Epoch::BLANK,
    };

    // The epoch's tag, where there is one.
    pub fn tag(&self) -> Option<u64>
        ensures { result ≡ then_some self.now.some self.now.ep.tag }
    {
        self.some.then_some(self.ep.tag)
    }

    // Whether an epoch is held under `tag`.
    #[tactic(auto, unfolding(crate::specs::Held::is_tag))]
    pub fn is_tag(&self, tag: u64) -> bool
        ensures { result ≡ is_tag self.now.some self.now.ep.tag tag }
    {
        self.some && self.ep.tag == tag
    }
}

// The previous epoch, kept after a cutover, if there is one.
#[repr(C)]
#[derive(Clone, Copy)]
pub struct Drain {
    pub some: bool,
    pub ep: Epoch,
    pub deadline: u64,
    // The deadline is the short one, after evidence the peer moved.
    pub evidenced: bool,
}

impl Drain {
    pub const NONE: Drain = Drain {
        some: false,
        ep: Epoch::BLANK,
        deadline: 0,
        evidenced: false,
    };
}
