//! The limits of texts, numbers, queues and chains, and the times that the rules name. Each number stands here alone.

/// The most bytes of a queue name, its suffix among them (SQS API Reference, "CreateQueue").
pub const NAME_LIMIT: usize = 80;

/// The most bytes of a message group id or a message deduplication id (SQS API Reference, "SendMessage").
pub const ID_LIMIT: usize = 128;

/// The first byte of ASCII, in its order, that such an id may have.
pub const FIRST_ID_BYTE: u8 = b'!';

/// The last byte of ASCII, in its order, that such an id may have.
pub const LAST_ID_BYTE: u8 = b'~';

/// The most bytes of a message body: 256 KiB.
pub const BODY_LIMIT: usize = 262_144;

/// The last moment, in milliseconds.
pub const MOMENT_LIMIT: u64 = 1 << 60;

/// A second, in milliseconds.
pub const SECOND: u64 = 1000;

/// So long after an accepted send its deduplication id is not accepted again: five minutes, in milliseconds (SQS
/// Developer Guide, "Exactly-once processing in Amazon SQS").
pub const DEDUPLICATION_WINDOW: u64 = 300_000;

/// So long after its removal no queue can be created under its name: a minute, in milliseconds (SQS API Reference,
/// "DeleteQueue").
pub const REMOVAL_DELAY: u64 = 60_000;

/// The longest visibility timeout: twelve hours, in seconds (SQS Developer Guide, "Amazon SQS visibility timeout").
pub const SECONDS_LIMIT: u32 = 43_200;

/// So long after it was handed out a message can be in flight: twelve hours, in milliseconds (SQS API Reference,
/// "ChangeMessageVisibility").
pub const FLIGHT_LIMIT: u64 = 43_200_000;

/// The most messages that one receive may ask for (SQS API Reference, "ReceiveMessage", `MaxNumberOfMessages`).
pub const BATCH_LIMIT: u8 = 10;

/// The most servers that a chain may have.
pub const CHAIN_LIMIT: u8 = 8;

/// The largest number of a server, and of a client.
pub const PARTY_LIMIT: u32 = u32::MAX;

/// The largest number of a client's request, and the largest tag of a query.
pub const NUMBER_LIMIT: u64 = u64::MAX;

/// So many elements no slice has.
pub const SLICE_LIMIT: u64 = 1 << 63;

/// The most entries of a history.
pub const HISTORY_LIMIT: u64 = 1 << 62;

/// The most requests of a client.
pub const REQUESTS_LIMIT: u64 = 1 << 62;
