//! The keys of lines, and what may stand under each: docs/LINES.md has them as tables.

use cq_base::{BATCH_LIMIT, MOMENT_LIMIT, NUMBER_LIMIT, PARTY_LIMIT, SECONDS_LIMIT};
use cq_live_script::AFTER_LIMIT;

/// What may stand under a key.
#[derive(Clone, Copy, Debug, PartialEq, Eq)]
pub(crate) enum Wanted {
    /// The text that says which keys there are.
    Name,
    /// A server's number.
    Server,
    /// A server's number, or the name of another party.
    Party,
    /// A whole number from one to another.
    Number { least: u64, most: u64 },
    Text,
    Truth,
    /// The text of a receipt handle.
    Receipt,
    /// An object that says an ask.
    Ask,
}

/// One key of an object.
#[derive(Clone, Copy, Debug)]
pub(crate) struct Key {
    pub name: &'static str,
    pub wanted: Wanted,
    pub may_be_missing: bool,
}

/// A kind of object, by the text under its first key.
#[derive(Clone, Copy, Debug)]
pub(crate) struct Shape {
    pub name: &'static str,
    pub keys: &'static [Key],
}

const OP: Key = Key {
    name: "op",
    wanted: Wanted::Name,
    may_be_missing: false,
};

const AT: Key = Key {
    name: "at",
    wanted: Wanted::Server,
    may_be_missing: false,
};

const CLOCK: Key = Key {
    name: "clock",
    wanted: Wanted::Number {
        least: 0,
        most: MOMENT_LIMIT,
    },
    may_be_missing: false,
};

const CLIENT: Key = Key {
    name: "client",
    wanted: Wanted::Number {
        least: 0,
        most: PARTY_LIMIT as u64,
    },
    may_be_missing: false,
};

const NUMBER: Key = Key {
    name: "number",
    wanted: Wanted::Number {
        least: 0,
        most: NUMBER_LIMIT,
    },
    may_be_missing: false,
};

const TAG: Key = Key {
    name: "tag",
    wanted: Wanted::Number {
        least: 0,
        most: NUMBER_LIMIT,
    },
    may_be_missing: false,
};

const ASK: Key = Key {
    name: "ask",
    wanted: Wanted::Ask,
    may_be_missing: false,
};

const QUEUE: Key = Key {
    name: "queue",
    wanted: Wanted::Text,
    may_be_missing: false,
};

const FROM: Key = Key {
    name: "from",
    wanted: Wanted::Party,
    may_be_missing: false,
};

const TO: Key = Key {
    name: "to",
    wanted: Wanted::Party,
    may_be_missing: false,
};

const SERVER: Key = Key {
    name: "server",
    wanted: Wanted::Server,
    may_be_missing: false,
};

const KIND: Key = Key {
    name: "kind",
    wanted: Wanted::Name,
    may_be_missing: false,
};

const VISIBILITY: Key = Key {
    name: "visibility",
    wanted: Wanted::Number {
        least: 0,
        most: SECONDS_LIMIT as u64,
    },
    may_be_missing: false,
};

const MAYBE_VISIBILITY: Key = Key {
    name: "visibility",
    wanted: Wanted::Number {
        least: 0,
        most: SECONDS_LIMIT as u64,
    },
    may_be_missing: true,
};

const CONTENT_DEDUP: Key = Key {
    name: "content_dedup",
    wanted: Wanted::Truth,
    may_be_missing: true,
};

const GROUP: Key = Key {
    name: "group",
    wanted: Wanted::Text,
    may_be_missing: false,
};

const DEDUP: Key = Key {
    name: "dedup",
    wanted: Wanted::Text,
    may_be_missing: true,
};

const BODY: Key = Key {
    name: "body",
    wanted: Wanted::Text,
    may_be_missing: false,
};

const SIZE: Key = Key {
    name: "size",
    wanted: Wanted::Number {
        least: 1,
        most: BATCH_LIMIT as u64,
    },
    may_be_missing: true,
};

const RECEIPT: Key = Key {
    name: "receipt",
    wanted: Wanted::Receipt,
    may_be_missing: false,
};

const LIVE_CLIENT: Key = Key {
    name: "client",
    wanted: Wanted::Number { least: 1, most: 2 },
    may_be_missing: false,
};

const AFTER: Key = Key {
    name: "after",
    wanted: Wanted::Number {
        least: 0,
        most: AFTER_LIMIT,
    },
    may_be_missing: false,
};

/// The operations of a script.
pub(crate) const OPERATIONS: &[Shape] = &[
    Shape {
        name: "arrive",
        keys: &[OP, AT, CLOCK, CLIENT, NUMBER, ASK],
    },
    Shape {
        name: "ask",
        keys: &[OP, AT, CLIENT, TAG, QUEUE],
    },
    Shape {
        name: "put",
        keys: &[OP, FROM, TO],
    },
    Shape {
        name: "take",
        keys: &[OP, FROM, TO],
    },
    Shape {
        name: "crash",
        keys: &[OP, SERVER],
    },
    Shape {
        name: "detect",
        keys: &[OP, SERVER],
    },
    Shape {
        name: "join",
        keys: &[OP, SERVER],
    },
];

/// The steps of a live script.
pub(crate) const STEPS: &[Shape] = &[
    Shape {
        name: "client",
        keys: &[OP, LIVE_CLIENT, ASK],
    },
    Shape {
        name: "crash",
        keys: &[OP, SERVER, AFTER],
    },
    Shape {
        name: "join",
        keys: &[OP, SERVER, AFTER],
    },
];

/// The kinds of asks.
pub(crate) const ASKS: &[Shape] = &[
    Shape {
        name: "create",
        keys: &[KIND, QUEUE, MAYBE_VISIBILITY, CONTENT_DEDUP],
    },
    Shape {
        name: "remove",
        keys: &[KIND, QUEUE],
    },
    Shape {
        name: "send",
        keys: &[KIND, QUEUE, GROUP, DEDUP, BODY],
    },
    Shape {
        name: "receive",
        keys: &[KIND, QUEUE, SIZE, MAYBE_VISIBILITY],
    },
    Shape {
        name: "delete",
        keys: &[KIND, QUEUE, RECEIPT],
    },
    Shape {
        name: "change",
        keys: &[KIND, QUEUE, RECEIPT, VISIBILITY],
    },
];
