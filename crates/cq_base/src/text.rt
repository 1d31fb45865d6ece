//! Queue names, ids and bodies: texts that keep their rules.
ghost use Rattle.std.specs.Prelude.{◌≡◌, ◌↔◌, ◌<◌, ◌≤◌, ◌-◌, true, false, List, ℕ, length, get_or, Some, IfOk, IfErr, IsErrOf};
ghost use Rattle.std.specs.Arc.{arc_str_bytes};
ghost use Rattle.std.specs.Bool.{OnTrue};
ghost use Rattle.std.specs.List.{list_all};
ghost use Rattle.std.specs.Str.{bytes_eq};
ghost use Rattle.std.specs.Hash as fed;
ghost use Rattle.std.specs.Cmp.Rules.{comparing, hashing};
ghost use Rattle.std.proofs.Common.{rules};
ghost use Rattle.cq_base.specs.within.PlainBytes.{IsPlain};
ghost use Rattle.cq_base.specs.declared.text.TheConstants.{NONCHARACTER_SECOND, FFFE_LAST, FFFF_LAST};
ghost use Rattle.cq_base.specs.Texts.{is_name_byte, is_queue_name, is_id_byte, is_id, is_body_character, has_body_characters, has_body_length, is_body, made_id};

use crate::fault::{BaseFault, NoMemory};
use crate::limits::{BODY_LIMIT, FIRST_ID_BYTE, ID_LIMIT, LAST_ID_BYTE, NAME_LIMIT};
use sha2::{Digest, Sha256};
use std::alloc::{AllocError, Global};
use std::fmt;
use std::hash::{Hash, Hasher};
use std::marker::Model;
use std::sync::ArcStr;

/// How many bytes of a body are looked at before it is asked whether one isn't plain.
const PIECE: usize = 256;

/// The first byte of U+FFFE and of U+FFFF in UTF-8.
const NONCHARACTER_FIRST: u8 = 0xEF;

/// The second byte of both.
const NONCHARACTER_SECOND: u8 = 0xBF;

/// The last byte of U+FFFE.
const FFFE_LAST: u8 = 0xBE;

/// The last byte of U+FFFF.
const FFFF_LAST: u8 = 0xBF;

fn is_name_byte(byte: u8) -> bool
    ensures { result ≡ is_name_byte byte }
{
    matches!(byte, b'a'..=b'z' | b'A'..=b'Z' | b'0'..=b'9' | b'-' | b'_')
}

fn are_name_bytes(bytes: &[u8]) -> bool
    ensures { result ≡ list_all is_name_byte bytes.now }
{
    bytes.iter().all(|byte| is_name_byte(*byte))
}

fn is_queue_name(bytes: &[u8]) -> bool
    ensures { result ≡ is_queue_name bytes.now }
{
    let fits = bytes.len() <= NAME_LIMIT && 5 < bytes.len() && bytes.ends_with(b".fifo");
    fits && are_name_bytes(&bytes[..bytes.len() - 5])
}

fn are_id_bytes(bytes: &[u8]) -> bool
    ensures { result ≡ list_all is_id_byte bytes.now }
{
    bytes
        .iter()
        .all(|byte| FIRST_ID_BYTE <= *byte && *byte <= LAST_ID_BYTE)
}

fn is_id(bytes: &[u8]) -> bool
    ensures { result ≡ is_id bytes.now }
{
    1 <= bytes.len() && bytes.len() <= ID_LIMIT && are_id_bytes(bytes)
}

fn is_body_character(character: char) -> bool
    ensures { result ≡ is_body_character character }
{
    matches!(character, '\t' | '\n' | '\r' | ' '..='\u{d7ff}' | '\u{e000}'..='\u{fffd}' | '\u{10000}'..='\u{10ffff}')
}

/// Whether a body may have each character: it decodes one after the other.
fn are_body_characters(text: &str) -> bool
    ensures { result ≡ has_body_characters text.now }
{
    text.chars().all(|character| is_body_character(character))
}

/// Whether a body may have a character of this one byte; a byte of a longer character passes.
#[inline(always)]
fn is_no_control(byte: u8) -> bool
    ensures { OnTrue result (is_body_character byte ≡ true) }
{
    (b' ' <= byte) | (byte == b'\t') | (byte == b'\n') | (byte == b'\r')
}

/// Whether this byte, behind that one, shows no character that a body may not have. These are the controls, and U+FFFE and
/// U+FFFF; of the latter the last two bytes are looked at, which some other characters have, too.
#[inline(always)]
fn is_plain(before: u8, byte: u8) -> bool
    ensures { OnTrue result ((is_body_character byte ≡ true)
        × (before ≡ NONCHARACTER_SECOND → FFFE_LAST ≤ byte → byte ≤ FFFF_LAST → ⊥)) }
{
    let is_end = (before == NONCHARACTER_SECOND) & (FFFE_LAST <= byte) & (byte <= FFFF_LAST);
    is_no_control(byte) & !is_end
}

/// The same of a byte behind those two, by all three bytes of U+FFFE and U+FFFF.
fn is_plain_behind(first: u8, second: u8, byte: u8) -> bool
    ensures { OnTrue result (IsPlain first second byte) }
{
    is_no_control(byte) && (first != NONCHARACTER_FIRST || is_plain(second, byte))
}

/// Whether the bytes at the places from the one up to the other are plain: O(places). It goes on past one that isn't,
/// since a loop with no other way out is compiled to look at many bytes at once.
fn are_plain(bytes: &[u8], from: usize, to: usize) -> bool
    requires from { 0 < from }
    requires to { to ≤ length bytes.now }
    ensures { OnTrue result ((k : ℕ) → from ≤ k → k < to
        → IsPlain (get_or bytes.now (k - 2) 0) (get_or bytes.now (k - 1) 0) (get_or bytes.now k 0)) }
{
    let mut plain = true;
    for at in from..to {
        plain &= is_plain(bytes[at - 1], bytes[at]);
    }
    plain
}

/// The same by three bytes for each place, one place after the other: O(places).
fn are_plain_behind(bytes: &[u8], from: usize, to: usize) -> bool
    requires from { 0 < from }
    requires to { to ≤ length bytes.now }
    ensures { OnTrue result ((k : ℕ) → from ≤ k → k < to
        → IsPlain (get_or bytes.now (k - 2) 0) (get_or bytes.now (k - 1) 0) (get_or bytes.now k 0)) }
{
    for at in from..to {
        if !is_plain_behind(bytes[at.saturating_sub(2)], bytes[at - 1], bytes[at]) {
            return false;
        }
    }
    true
}

/// The same, by two bytes for each place where these tell it already.
fn is_plain_piece(bytes: &[u8], from: usize, to: usize) -> bool
    requires from { 0 < from }
    requires to { to ≤ length bytes.now }
    ensures { OnTrue result ((k : ℕ) → from ≤ k → k < to
        → IsPlain (get_or bytes.now (k - 2) 0) (get_or bytes.now (k - 1) 0) (get_or bytes.now k 0)) }
{
    are_plain(bytes, from, to) || are_plain_behind(bytes, from, to)
}

/// Whether the bytes alone show that a body may have each character. It looks at no piece of the text behind the first
/// with a byte that isn't plain: O(bytes before that one, and one piece).
fn are_plain_bytes(text: &str) -> bool
    ensures { OnTrue result (has_body_characters text.now ≡ true) }
{
    let bytes = text.as_bytes();
    if bytes.is_empty() || !is_no_control(bytes[0]) {
        return false;
    }
    let mut from = 1;
    while from < bytes.len() {
        let to = from + PIECE.min(bytes.len() - from);
        if !is_plain_piece(bytes, from, to) {
            return false;
        }
        from = to;
    }
    true
}

/// Whether a body may have each character: O(bytes of the text). Only a text with a byte that isn't plain is decoded.
fn has_body_characters(text: &str) -> bool
    ensures { result ≡ has_body_characters text.now }
{
    are_plain_bytes(text) || are_body_characters(text)
}

fn has_body_length(text: &str) -> bool
    ensures { result ≡ has_body_length text.now }
{
    1 <= text.len() && text.len() <= BODY_LIMIT
}

/// The name of a FIFO queue: at most 80 bytes, with `.fifo` at its end (SQS API Reference, "CreateQueue").
#[derive(Debug, Drop)]
pub struct QueueName {
    text: ArcStr,
}

impl Model for QueueName {
    ghost Value = { List ℕ };

    ghost view = { λ t. arc_str_bytes t.text };

    ghost invariant = { λ t. is_queue_name (arc_str_bytes t.text) ≡ true };
}

impl QueueName {
    /// The queue name with that text. It takes a copy of the text, O(length of the text).
    pub fn new(alloc: Global, text: &str) -> Result<QueueName, BaseFault>
        ensures value { IfOk result (λ made. made ≡ text.now) }
        ensures bad { IsErrOf result BaseFault.BadQueueName ↔ (is_queue_name text.now ≡ false) }
        ensures memory { IfErr result (λ fault. is_queue_name text.now ≡ true → fault ≡ BaseFault.NoMemory) }
    {
        if !is_queue_name(text.as_bytes()) {
            return Err(BaseFault::BadQueueName);
        }
        Ok(QueueName {
            text: ArcStr::from_str(alloc, text)?,
        })
    }

    pub fn as_str(&self) -> &str
        ensures text { result.now ≡ self.now }
        ensures valid { is_queue_name self.now ≡ true }
    {
        let _ = &self.text;
        self.text.as_str()
    }

    /// The same name. It shares the text, so that its cost does not grow with the text.
    pub fn try_copy(&self) -> Result<QueueName, NoMemory>
        ensures { IfOk result (λ copy. copy ≡ self.now) }
    {
        Ok(QueueName {
            text: self.text.clone()?,
        })
    }
}

impl PartialEq for QueueName {
    ghost eq = { bytes_eq };

    ghost laws = { Prim.search (comparing, rules) };

    fn eq(&self, other: &QueueName) -> bool {
        self.as_str() == other.as_str()
    }
}

impl Eq for QueueName {
    ghost laws = { Prim.search (comparing, rules) };
}

impl Hash for QueueName {
    ghost hash_input = { λ t. fed.str t };

    ghost respects_eq = { Prim.search (hashing, comparing, rules) };

    fn hash<H: Hasher>(&self, state: &mut H) {
        self.as_str().hash(state);
    }
}

impl fmt::Display for QueueName {
    ghost output = { λ t. Some t };

    fn fmt<W: fmt::Write>(&self, f: &mut fmt::Formatter<W>) -> fmt::Result {
        f.pad(self.as_str())
    }
}

/// A message group id, 1 to 128 bytes (SQS API Reference, "SendMessage", `MessageGroupId`).
#[derive(Debug, Drop)]
pub struct GroupId {
    text: ArcStr,
}

impl Model for GroupId {
    ghost Value = { List ℕ };

    ghost view = { λ t. arc_str_bytes t.text };

    ghost invariant = { λ t. is_id (arc_str_bytes t.text) ≡ true };
}

impl GroupId {
    /// The id with that text. It takes a copy of the text, O(length of the text).
    pub fn new(alloc: Global, text: &str) -> Result<GroupId, BaseFault>
        ensures value { IfOk result (λ made. made ≡ text.now) }
        ensures bad { IsErrOf result BaseFault.BadGroup ↔ (is_id text.now ≡ false) }
        ensures memory { IfErr result (λ fault. is_id text.now ≡ true → fault ≡ BaseFault.NoMemory) }
    {
        if !is_id(text.as_bytes()) {
            return Err(BaseFault::BadGroup);
        }
        Ok(GroupId {
            text: ArcStr::from_str(alloc, text)?,
        })
    }

    pub fn as_str(&self) -> &str
        ensures text { result.now ≡ self.now }
        ensures valid { is_id self.now ≡ true }
    {
        let _ = &self.text;
        self.text.as_str()
    }

    /// The same id. It shares the text, so that its cost does not grow with the text.
    pub fn try_copy(&self) -> Result<GroupId, NoMemory>
        ensures { IfOk result (λ copy. copy ≡ self.now) }
    {
        Ok(self.clone()?)
    }
}

/// It shares the text, as `try_copy`.
impl Clone for GroupId {
    ghost is_clone = { λ id copy. copy ≡ id };

    fn clone(&self) -> Result<GroupId, AllocError> {
        Ok(GroupId {
            text: self.text.clone()?,
        })
    }
}

impl PartialEq for GroupId {
    ghost eq = { bytes_eq };

    ghost laws = { Prim.search (comparing, rules) };

    fn eq(&self, other: &GroupId) -> bool {
        self.as_str() == other.as_str()
    }
}

impl Eq for GroupId {
    ghost laws = { Prim.search (comparing, rules) };
}

impl Hash for GroupId {
    ghost hash_input = { λ t. fed.str t };

    ghost respects_eq = { Prim.search (hashing, comparing, rules) };

    fn hash<H: Hasher>(&self, state: &mut H) {
        self.text.as_str().hash(state);
    }
}

impl fmt::Display for GroupId {
    ghost output = { λ t. Some t };

    fn fmt<W: fmt::Write>(&self, f: &mut fmt::Formatter<W>) -> fmt::Result {
        f.pad(self.as_str())
    }
}

/// A message deduplication id, 1 to 128 bytes (SQS API Reference, "SendMessage",
/// `MessageDeduplicationId`).
#[derive(Debug, Drop)]
pub struct DedupId {
    text: ArcStr,
}

impl Model for DedupId {
    ghost Value = { List ℕ };

    ghost view = { λ t. arc_str_bytes t.text };

    ghost invariant = { λ t. is_id (arc_str_bytes t.text) ≡ true };
}

impl DedupId {
    /// The id with that text. It takes a copy of the text, O(length of the text).
    pub fn new(alloc: Global, text: &str) -> Result<DedupId, BaseFault>
        ensures value { IfOk result (λ made. made ≡ text.now) }
        ensures bad { IsErrOf result BaseFault.BadDedup ↔ (is_id text.now ≡ false) }
        ensures memory { IfErr result (λ fault. is_id text.now ≡ true → fault ≡ BaseFault.NoMemory) }
    {
        if !is_id(text.as_bytes()) {
            return Err(BaseFault::BadDedup);
        }
        Ok(DedupId {
            text: ArcStr::from_str(alloc, text)?,
        })
    }

    /// The id that is made of a body: the SHA-256 of its bytes, as 64 lower-case hex digits (SQS API
    /// Reference, "CreateQueue", `ContentBasedDeduplication`). O(length of the body).
    pub fn of_body(body: &Body) -> Result<DedupId, NoMemory>
        ensures { IfOk result (λ made. made ≡ made_id body.now) }
    {
        let digest = Sha256::digest(body.as_str());
        let text = hex::encode(body.alloc, digest)?;
        Ok(DedupId {
            text: ArcStr::from_string(text)?,
        })
    }

    pub fn as_str(&self) -> &str
        ensures text { result.now ≡ self.now }
        ensures valid { is_id self.now ≡ true }
    {
        let _ = &self.text;
        self.text.as_str()
    }

    /// The same id. It shares the text, so that its cost does not grow with the text.
    pub fn try_copy(&self) -> Result<DedupId, NoMemory>
        ensures { IfOk result (λ copy. copy ≡ self.now) }
    {
        Ok(self.clone()?)
    }
}

/// It shares the text, as `try_copy`.
impl Clone for DedupId {
    ghost is_clone = { λ id copy. copy ≡ id };

    fn clone(&self) -> Result<DedupId, AllocError> {
        Ok(DedupId {
            text: self.text.clone()?,
        })
    }
}

impl PartialEq for DedupId {
    ghost eq = { bytes_eq };

    ghost laws = { Prim.search (comparing, rules) };

    fn eq(&self, other: &DedupId) -> bool {
        self.as_str() == other.as_str()
    }
}

impl Eq for DedupId {
    ghost laws = { Prim.search (comparing, rules) };
}

impl Hash for DedupId {
    ghost hash_input = { λ t. fed.str t };

    ghost respects_eq = { Prim.search (hashing, comparing, rules) };

    fn hash<H: Hasher>(&self, state: &mut H) {
        self.text.as_str().hash(state);
    }
}

impl fmt::Display for DedupId {
    ghost output = { λ t. Some t };

    fn fmt<W: fmt::Write>(&self, f: &mut fmt::Formatter<W>) -> fmt::Result {
        f.pad(self.as_str())
    }
}

/// A message body, 1 to 262,144 bytes of text (SQS API Reference, "SendMessage", `MessageBody`).
#[derive(Debug, Drop)]
pub struct Body {
    text: ArcStr,
    /// Where an id that is made of it takes its memory.
    alloc: Global,
}

impl Model for Body {
    ghost Value = { List ℕ };

    ghost view = { λ t. arc_str_bytes t.text };

    ghost invariant = { λ t. is_body (arc_str_bytes t.text) ≡ true };
}

impl Body {
    /// The body with that text. It takes a copy of the text, O(length of the text). The characters are
    /// looked at before the length.
    pub fn new(alloc: Global, text: &str) -> Result<Body, BaseFault>
        ensures value { IfOk result (λ made. made ≡ text.now) }
        ensures contents { IsErrOf result BaseFault.InvalidMessageContents
            ↔ (has_body_characters text.now ≡ false) }
        ensures length { has_body_characters text.now ≡ true
            → (IsErrOf result BaseFault.BodyLength ↔ (has_body_length text.now ≡ false)) }
        ensures memory { IfErr result (λ fault. is_body text.now ≡ true → fault ≡ BaseFault.NoMemory) }
    {
        if !has_body_characters(text) {
            return Err(BaseFault::InvalidMessageContents);
        }
        if !has_body_length(text) {
            return Err(BaseFault::BodyLength);
        }
        Ok(Body {
            text: ArcStr::from_str(alloc, text)?,
            alloc,
        })
    }

    pub fn as_str(&self) -> &str
        ensures text { result.now ≡ self.now }
        ensures valid { is_body self.now ≡ true }
    {
        let _ = &self.text;
        self.text.as_str()
    }

    /// The same body. It shares the text, so that its cost does not grow with the text.
    pub fn try_copy(&self) -> Result<Body, NoMemory>
        ensures { IfOk result (λ copy. copy ≡ self.now) }
    {
        Ok(Body {
            text: self.text.clone()?,
            alloc: self.alloc,
        })
    }
}

impl PartialEq for Body {
    ghost eq = { bytes_eq };

    ghost laws = { Prim.search (comparing, rules) };

    fn eq(&self, other: &Body) -> bool {
        self.as_str() == other.as_str()
    }
}

impl Eq for Body {
    ghost laws = { Prim.search (comparing, rules) };
}

impl fmt::Display for Body {
    ghost output = { λ t. Some t };

    fn fmt<W: fmt::Write>(&self, f: &mut fmt::Formatter<W>) -> fmt::Result {
        f.pad(self.as_str())
    }
}
