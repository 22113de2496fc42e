// Where each argument of a call stands in its row; an index takes two places. specs/Places.antt has
// the same names for definitions.

// The instant of every call stands first.
pub const NOW: usize = 0;

// `open`: a role of 1 is the responder's.
pub const OPEN_NOW: usize = 0;

pub const OPEN_ROLE: usize = 1;

pub const OPEN_TRANSPORT: usize = 2;

pub const OPEN_LEASE: usize = 3;

pub const OPEN_WORKERS: usize = 5;

pub const OPEN_SPREAD: usize = 6;

// `poll`.
pub const POLL_NOW: usize = 0;

pub const POLL_WORKERS: usize = 1;

pub const POLL_SPREAD: usize = 2;

pub const POLL_EXTRA: usize = 3;

// `frame`: the instant, the proof, where the body starts, the worker flag and the spread.
pub const FRAME_NOW: usize = 0;

pub const FRAME_SLOT: usize = 1;

pub const FRAME_TAG: usize = 2;

pub const FRAME_COUNTER: usize = 3;

pub const FRAME_K: usize = 4;

pub const FRAME_LEN: usize = 5;

pub const FRAME_PROBE: usize = 6;

pub const FRAME_BODY: usize = 7;

pub const FRAME_WORKERS: usize = 8;

pub const FRAME_SPREAD: usize = 9;

// How long the buffers are, which whoever lends them reads.
pub const FRAME_TARGET: usize = 10;

pub const FRAME_SOURCE: usize = 11;

// `reply`.
pub const REPLY_NOW: usize = 0;

pub const REPLY_OPENED: usize = 1;

pub const REPLY_HS: usize = 2;

pub const REPLY_MSG: usize = 3;

pub const REPLY_TRANSPORT: usize = 4;

pub const REPLY_LEASE: usize = 5;

// `sent`.
pub const SENT_NOW: usize = 0;

pub const SENT_COUNT: usize = 1;

// `status`; a `wake` has no arguments.
pub const STATUS_NOW: usize = 0;
