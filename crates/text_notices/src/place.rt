// Where each argument of a notice stands in its row; a number that may be absent takes two places.
// specs/Places.antt has the same names for definitions.

// The instant, the worker flag and the spread of every notice.
pub const NOW: usize = 0;

pub const WORKERS: usize = 1;

pub const SPREAD: usize = 2;

// The tag of `worker`, `delegated` and `undelegated`.
pub const TAG: usize = 3;

// `worker`.
pub const WORKER_K: usize = 4;

pub const WORKER_COUNTER: usize = 5;

// `path`.
pub const PATH_REACHABLE: usize = 3;

pub const PATH_SRTT: usize = 4;
