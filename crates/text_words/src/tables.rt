// The arguments of each call.
use crate::{Argument, Default, Kind, Words};

pub const ROLES: Words = Words {
    one: b"responder",
    zero: b"initiator",
    what: "a role",
};

pub const REPLIES: Words = Words {
    one: b"opened",
    zero: b"failed",
    what: "a reply",
};

const NOW: Argument = Argument {
    name: b"now",
    kind: Kind::Number(u64::MAX),
    default: Default::Place,
};

const ROLE: Argument = Argument {
    name: b"role",
    kind: Kind::Choice(ROLES),
    default: Default::Value(1),
};

const TRANSPORT: Argument = Argument {
    name: b"transport",
    kind: Kind::Number(u64::MAX),
    default: Default::Value(0),
};

const LEASE: Argument = Argument {
    name: b"lease",
    kind: Kind::Optional(4294967295),
    default: Default::None,
};

const WORKERS: Argument = Argument {
    name: b"workers",
    kind: Kind::Number(1),
    default: Default::Value(0),
};

const SPREAD: Argument = Argument {
    name: b"spread",
    kind: Kind::Signed,
    default: Default::Value(0),
};

const EXTRA: Argument = Argument {
    name: b"extra",
    kind: Kind::Signed,
    default: Default::Value(0),
};

const SLOT: Argument = Argument {
    name: b"slot",
    kind: Kind::Number(255),
    default: Default::Value(0),
};

const TAG: Argument = Argument {
    name: b"tag",
    kind: Kind::Number(u64::MAX),
    default: Default::Tag,
};

const COUNTER: Argument = Argument {
    name: b"counter",
    kind: Kind::Number(u64::MAX),
    default: Default::Value(0),
};

const K: Argument = Argument {
    name: b"k",
    kind: Kind::Number(1),
    default: Default::Value(0),
};

const LEN: Argument = Argument {
    name: b"len",
    kind: Kind::Number(u64::MAX),
    default: Default::Value(0),
};

const PROBE: Argument = Argument {
    name: b"probe",
    kind: Kind::Number(1),
    default: Default::Value(0),
};

const BODY: Argument = Argument {
    name: b"body",
    kind: Kind::Number(u64::MAX),
    default: Default::Value(0),
};

const TARGET: Argument = Argument {
    name: b"target",
    kind: Kind::Buffer(65536),
    default: Default::Value(65536),
};

const SOURCE: Argument = Argument {
    name: b"source",
    kind: Kind::Buffer(65536),
    default: Default::Value(65536),
};

const OPENED: Argument = Argument {
    name: b"reply",
    kind: Kind::Choice(REPLIES),
    default: Default::Value(1),
};

const HS: Argument = Argument {
    name: b"hs",
    kind: Kind::Number(u64::MAX),
    default: Default::Value(0),
};

const MSG: Argument = Argument {
    name: b"msg",
    kind: Kind::Number(u64::MAX),
    default: Default::Value(0),
};

const COUNT: Argument = Argument {
    name: b"count",
    kind: Kind::Number(u64::MAX),
    default: Default::Place,
};

const REACHABLE: Argument = Argument {
    name: b"reachable",
    kind: Kind::Number(1),
    default: Default::Value(1),
};

const SRTT: Argument = Argument {
    name: b"srtt",
    kind: Kind::Optional(u64::MAX),
    default: Default::None,
};

const LATEST: Argument = Argument {
    name: b"now",
    kind: Kind::Number(u64::MAX),
    default: Default::Kept,
};

pub const OPEN: &[Argument] = &[NOW, ROLE, TRANSPORT, LEASE, WORKERS, SPREAD];

pub const POLL: &[Argument] = &[NOW, WORKERS, SPREAD, EXTRA];

pub const FRAME: &[Argument] = &[
    NOW, SLOT, TAG, COUNTER, K, LEN, PROBE, BODY, WORKERS, SPREAD, TARGET, SOURCE,
];

pub const REPLY: &[Argument] = &[NOW, OPENED, HS, MSG, TRANSPORT, LEASE];

pub const SENT: &[Argument] = &[NOW, COUNT];

pub const WORKER: &[Argument] = &[NOW, WORKERS, SPREAD, TAG, K, COUNTER];

pub const TAGGED: &[Argument] = &[NOW, WORKERS, SPREAD, TAG];

pub const DATA_SENT: &[Argument] = &[NOW, WORKERS, SPREAD];

pub const PATH: &[Argument] = &[NOW, WORKERS, SPREAD, REACHABLE, SRTT];

pub const WAKE: &[Argument] = &[LATEST];

pub const STATUS: &[Argument] = &[NOW];
