//! A flat object's text, read straight from its bytes. A body that ends with `let x = f()?; Some(x)` gives a name to what its
//! proof speaks of.
ghost use Rattle.std.specs.Prelude.{◌≡◌, ◌<◌, ◌^◌, [], ◌∷◌, ◌++◌, length, IfSome, IsNone, OnSome, Some, true};
ghost use Rattle.std.specs.Fmt.{decimal};
ghost use Rattle.std.specs.Char.{encode_utf8};
ghost use Rattle.std.specs.String.{string_bytes};
ghost use Rattle.json.specs.Print.{escape, quoted};
ghost use Rattle.json.specs.Word.{ends_word, is_operator};
ghost use Rattle.json.specs.Text.{short_escape, is_high_surrogate, after_u, after_high};
ghost use Rattle.serde_json.specs.Data.{object, no_members};
ghost use Rattle.cq_json.specs.Fields.{json_of};
ghost use Rattle.cq_json.specs.Flat.{puts, inner_members};
ghost use Rattle.cq_json.specs.within.FlatText.{IsInRange, IsAscii, run_end, Spelled, SpelledFrom, IsUnit, Same, value_text, member_text, Takes};
ghost use Rattle.cq_json.specs.declared.flat_text.TheConstants.{NUMBERED};

use crate::flat::{Member, Members, Scalar};
use crate::key::Key;
use crate::plain::plain_len;
use crate::spares::Spares;

/// Numbers from here on are not read.
const NUMBER_END: u64 = 1_000_000_000_000_000_000;

/// The letter of an escape by numbers, as in `\u00e9`.
const NUMBERED: u8 = b'u';

/// Sixteen spaces.
const SPACES: &str = "                ";

/// Where the reading of members came to a stop.
enum Pause {
    /// Behind the end of the object.
    End,
    /// Before the bracket that opens the inner object, which is the value of the last member.
    Inner,
}

/// What follows that ASCII character, if the text begins with it.
fn after(text: &str, character: u8) -> Option<&str>
    requires { IsAscii character }
    ensures { IfSome result (λ rest. text.now ≡ character ∷ rest.now) }
{
    if *text.as_bytes().first()? != character {
        return None;
    }
    Some(&text[1..])
}

/// Whether a string ends at that byte; none for one that is neither a quote nor a backslash.
fn ends_at(byte: u8) -> Option<bool>
    ensures { IfSome result (λ ends. byte ≡ run_end ends) }
{
    match byte {
        b'"' => Some(true),
        b'\\' => Some(false),
        _ => None,
    }
}

/// The prefix of a string's text whose bytes stand for themselves, whether the string ends behind it or has an escape
/// there, and what follows the quote or the backslash: O(bytes of the prefix).
fn next_run(text: &str) -> Option<(&str, bool, &str)>
    ensures value { IfSome result (λ parts.
        text.now ≡ escape parts.0.now ++ (run_end parts.1 ∷ parts.2.now)) }
    ensures spelled { IfSome result (λ parts. Spelled text.now parts.0.now (run_end parts.1 ∷ parts.2.now)) }
{
    let bytes = text.as_bytes();
    let len = plain_len(bytes);
    if len == bytes.len() {
        return None;
    }
    let ends = ends_at(bytes[len])?;
    Some((&text[..len], ends, &text[len + 1..]))
}

/// What follows the space, tab or carriage return at the beginning.
fn after_space(text: &str) -> Option<&str>
    ensures same { IfSome result (λ rest. Same text.now rest.now) }
    ensures ends { IfSome result (λ rest. ends_word text.now ≡ true) }
    ensures shorter { IfSome result (λ rest. length rest.now < length text.now) }
{
    if let Some(rest) = after(text, b' ') {
        return Some(rest);
    }
    if let Some(rest) = after(text, b'\t') {
        return Some(rest);
    }
    let rest = after(text, b'\r')?;
    Some(rest)
}

/// What follows the sixteen spaces at the beginning, or else the one space, tab or carriage return.
fn after_some_spaces(text: &str) -> Option<&str>
    ensures same { IfSome result (λ rest. Same text.now rest.now) }
    ensures ends { IfSome result (λ rest. ends_word text.now ≡ true) }
    ensures shorter { IfSome result (λ rest. length rest.now < length text.now) }
{
    if let Some(rest) = text.strip_prefix(SPACES) {
        return Some(rest);
    }
    after_space(text)
}

/// What follows the white space at the beginning, of which there is much: O(its bytes).
fn after_many_spaces(text: &str) -> &str
    ensures same { Same text.now result.now }
    ensures ends { ends_word result.now ≡ true → ends_word text.now ≡ true }
{
    let mut rest = text;
    'spaces: while let Some(behind) = after_some_spaces(rest) {
        rest = behind;
    }
    rest
}

/// What follows the white space at the beginning: O(its bytes).
#[inline(never)]
fn after_spaces(text: &str) -> &str
    ensures same { Same text.now result.now }
    ensures ends { ends_word result.now ≡ true → ends_word text.now ≡ true }
{
    let Some(one) = after_space(text) else {
        return text;
    };
    let Some(two) = after_space(one) else {
        return one;
    };
    after_many_spaces(two)
}

/// The same, and no call where there is no white space.
#[inline(always)]
fn without_spaces(text: &str) -> &str
    ensures same { Same text.now result.now }
    ensures ends { ends_word result.now ≡ true → ends_word text.now ≡ true }
{
    match text.as_bytes().first() {
        Some(first) if *first <= b' ' => after_spaces(text),
        _ => text,
    }
}

/// What follows that ASCII character, which may stand behind white space.
#[inline(always)]
fn after_mark(text: &str, mark: u8) -> Option<&str>
    requires { IsAscii mark }
    ensures same { IfSome result (λ rest. Same text.now (mark ∷ rest.now)) }
    ensures ends { is_operator mark ≡ true → IfSome result (λ rest. ends_word text.now ≡ true) }
{
    if let Some(rest) = after(text, mark) {
        return Some(rest);
    }
    after(after_spaces(text), mark)
}

/// The string at the beginning, which may stand behind white space, if it has no escapes, and what follows it: O(its bytes).
fn read_string(text: &str) -> Option<(&str, &str)>
    ensures { IfSome result (λ parts. Same text.now (quoted parts.0.now ++ parts.1.now)) }
{
    let (string, ends, rest) = next_run(after_mark(text, b'"')?)?;
    if ends { Some((string, rest)) } else { None }
}

/// The character whose short escape has that letter.
#[tactic(auto, unfolding(json::specs::Text::short_escape))]
fn escaped_by(letter: u8) -> Option<char>
    ensures value { IfSome result (λ character. short_escape letter ≡ Some character) }
    ensures ascii { IfSome result (λ character. IsAscii character × IsAscii letter) }
    ensures numbered { letter ≡ NUMBERED → IsNone result }
{
    match letter {
        b'"' => Some('"'),
        b'\\' => Some('\\'),
        b'/' => Some('/'),
        b'b' => Some('\u{8}'),
        b'f' => Some('\u{c}'),
        b'n' => Some('\n'),
        b'r' => Some('\r'),
        b't' => Some('\t'),
        _ => None,
    }
}

/// The UTF-16 code unit that four hex digits at the beginning spell (RFC 8259, section 7), and what follows them.
fn read_unit(text: &str) -> Option<(u32, &str)>
    ensures { IfSome result (λ parts. IsUnit text.now parts.0 parts.1.now) }
{
    let bytes = text.as_bytes();
    if bytes.len() < 4 {
        return None;
    }
    let a = char::from(bytes[0]).to_digit(16)?;
    let b = char::from(bytes[1]).to_digit(16)?;
    let c = char::from(bytes[2]).to_digit(16)?;
    let d = char::from(bytes[3]).to_digit(16)?;
    Some((a * 4096 + b * 256 + c * 16 + d, &text[4..]))
}

/// The character of a surrogate pair with that first half, where the escape of the second stands at the beginning, and what
/// follows it.
fn read_second_half(high: u32, text: &str) -> Option<(char, &str)>
    requires { is_high_surrogate high ≡ true }
    ensures value { IfSome result (λ parts. SpelledFrom (after_high high) text.now (encode_utf8 parts.0) parts.1.now) }
    ensures shorter { IfSome result (λ parts. length parts.1.now < length text.now) }
{
    let (low, rest) = read_unit(text.strip_prefix("\\u")?)?;
    if !(0xdc00..0xe000).contains(&low) {
        return None;
    }
    let character = char::from_u32(0x1_0000 + (high - 0xd800) * 1024 + (low - 0xdc00))?;
    Some((character, rest))
}

/// The character whose escape by numbers stands at the beginning, behind its backslash and its `u`, and what follows it.
fn read_numbered(text: &str) -> Option<(char, &str)>
    ensures value { IfSome result (λ parts. SpelledFrom after_u text.now (encode_utf8 parts.0) parts.1.now) }
    ensures shorter { IfSome result (λ parts. length parts.1.now < length text.now) }
{
    let (unit, rest) = read_unit(text)?;
    if (0xd800..0xdc00).contains(&unit) {
        let (character, behind) = read_second_half(unit, rest)?;
        return Some((character, behind));
    }
    Some((char::from_u32(unit)?, rest))
}

/// The character whose escape stands at the beginning, behind its backslash, and what follows it.
fn read_escape(text: &str) -> Option<(char, &str)>
    ensures value { IfSome result (λ parts. Spelled (92 ∷ text.now) (encode_utf8 parts.0) parts.1.now) }
    ensures shorter { IfSome result (λ parts. length parts.1.now < length text.now) }
{
    if let Some(digits) = after(text, NUMBERED) {
        let (character, rest) = read_numbered(digits)?;
        return Some((character, rest));
    }
    let character = escaped_by(*text.as_bytes().first()?)?;
    Some((character, &text[1..]))
}

/// Makes `out` that text. None where there is no memory.
fn begin(out: &mut String, prefix: &str) -> Option<()>
    ensures { OnSome result (string_bytes out.new ≡ prefix.now) }
{
    out.clear();
    out.push_str(prefix).ok()
}

/// Adds a character and a text. None where there is no memory.
fn append(out: &mut String, character: char, run: &str) -> Option<()>
    ensures { OnSome result (string_bytes out.new
        ≡ (string_bytes out.old ++ encode_utf8 character) ++ run.now) }
{
    out.push(character).ok()?;
    out.push_str(run).ok()
}

/// The string that has this prefix, and behind it an escape of which the backslash was passed; and what follows it. It is
/// written to `out`: O(its bytes). None also where there is no memory.
fn read_escaped<'a>(prefix: &str, text: &'a str, out: &'a mut String) -> Option<(&'a str, &'a str)>
    requires { Spelled (escape prefix.now ++ (92 ∷ text.now)) prefix.now (92 ∷ text.now) }
    ensures { IfSome result (λ parts. Spelled (escape prefix.now ++ (92 ∷ text.now)) parts.0.now (34 ∷ parts.1.now)) }
{
    begin(out, prefix)?;
    let mut rest = text;
    let mut ended = false;
    'escapes: while !ended {
        let (character, behind) = read_escape(rest)?;
        let (run, ends, next) = next_run(behind)?;
        append(out, character, run)?;
        ended = ends;
        rest = next;
    }
    Some((out.as_str(), rest))
}

/// The string at the beginning, and what follows it: O(its bytes). One with escapes is written to a spare string.
fn read_text<'a>(text: &'a str, spares: &mut Spares<'a>) -> Option<(&'a str, &'a str)>
    ensures { IfSome result (λ parts. Same text.now (quoted parts.0.now ++ parts.1.now)) }
{
    let (prefix, ends, rest) = next_run(after(text, b'"')?)?;
    if ends {
        return Some((prefix, rest));
    }
    let (string, rest) = read_escaped(prefix, rest, spares.take()?)?;
    Some((string, rest))
}

/// The number at the beginning, and what follows it: O(its digits). None also for one that has 20 digits or begins with a
/// `0` it doesn't need.
fn read_number(text: &str) -> Option<(u64, &str)>
    ensures { IfSome result (λ parts. (text.now ≡ decimal parts.0 ++ parts.1.now) × (parts.0 < 2 ^ 64)) }
{
    let bytes = text.as_bytes();
    let first = *bytes.first()?;
    if first == b'0' {
        return Some((0, &text[1..]));
    }
    if !first.is_ascii_digit() {
        return None;
    }
    let mut number = u64::from(first - b'0');
    let mut len = 1;
    while len < bytes.len() && bytes[len].is_ascii_digit() {
        if number >= NUMBER_END {
            return None;
        }
        number = number * 10 + u64::from(bytes[len] - b'0');
        len += 1;
    }
    Some((number, &text[len..]))
}

/// The truth value at the beginning, and what follows it.
fn read_truth(text: &str) -> Option<(bool, &str)>
    ensures { IfSome result (λ parts. text.now ≡ value_text [] (Scalar.Truth parts.0) ++ parts.1.now) }
{
    if let Some(rest) = text.strip_prefix("true") {
        return Some((true, rest));
    }
    Some((false, text.strip_prefix("false")?))
}

/// The value at the beginning, which may stand behind white space, and what follows it; of the inner object nothing is passed.
fn read_value<'a>(text: &'a str, spares: &mut Spares<'a>) -> Option<(Scalar<'a>, &'a str)>
    ensures { IfSome result (λ parts. Same text.now (value_text [] parts.0 ++ parts.1.now) × IsInRange parts.0) }
{
    let text = without_spaces(text);
    match *text.as_bytes().first()? {
        b'"' => {
            let (string, rest) = read_text(text, spares)?;
            Some((Scalar::Text(string), rest))
        }
        b'{' => Some((Scalar::Inner, text)),
        b't' | b'f' => {
            let (truth, rest) = read_truth(text)?;
            Some((Scalar::Truth(truth), rest))
        }
        b'n' => Some((Scalar::Null, text.strip_prefix("null")?)),
        _ => {
            let (number, rest) = read_number(text)?;
            Some((Scalar::Number(number), rest))
        }
    }
}

/// The member at the beginning, and what follows it.
fn read_member<'a>(text: &'a str, spares: &mut Spares<'a>) -> Option<(Member<'a>, &'a str)>
    ensures { IfSome result (λ parts. Same text.now (member_text [] parts.0 ++ parts.1.now) × IsInRange parts.0.value) }
{
    let (name, rest) = read_string(text)?;
    let key = Key::named(name)?;
    let (value, rest) = read_value(after_mark(rest, b':')?, spares)?;
    Some((Member { key, value }, rest))
}

/// Takes members up to the end of the object, or up to one whose value is an object, and gives what follows: O(bytes).
/// Before the first of an object stands its bracket. None also where there is no room for them.
fn take_members<'a>(
    text: &'a str,
    members: &mut Members<'a>,
    spares: &mut Spares<'a>,
) -> Option<(Pause, &'a str)>
    ensures { IfSome result (λ parts. Takes text.now members.old.items parts.0 parts.1.now members.new.items) }
{
    let mut rest = text;
    'members: loop {
        rest = without_spaces(rest);
        let opening = if members.is_empty() { b'{' } else { b',' };
        let Some(next) = after(rest, opening) else {
            break 'members;
        };
        if members.is_full() {
            return None;
        }
        let (member, left) = read_member(next, spares)?;
        members.push(member);
        rest = left;
        if member.value.is_inner() {
            return Some((Pause::Inner, rest));
        }
    }
    if members.is_empty() {
        return None;
    }
    let rest = after(rest, b'}')?;
    Some((Pause::End, rest))
}

/// Takes members up to the end of the object, and gives what follows. None where the value of one is an object.
fn take_rest<'a>(
    text: &'a str,
    members: &mut Members<'a>,
    spares: &mut Spares<'a>,
) -> Option<&'a str>
    ensures { IfSome result (λ rest. Takes text.now members.old.items Pause.End rest.now members.new.items) }
{
    match take_members(text, members, spares)? {
        (Pause::End, rest) => Some(rest),
        (Pause::Inner, _) => None,
    }
}

/// Something, if nothing but white space is left.
fn ended(rest: &str) -> Option<()>
    ensures { OnSome result (Same rest.now []) }
{
    if without_spaces(rest).is_empty() {
        Some(())
    } else {
        None
    }
}

/// Takes the members of the object that the text is, and those of the object in it: O(bytes). None for any text of
/// another form, and the members are then of no use.
pub(crate) fn take_object<'a>(
    text: &'a str,
    members: &mut Members<'a>,
    inner: &mut Members<'a>,
    spares: &mut Spares<'a>,
) -> Option<()>
    requires members { members.old.items ≡ [] }
    requires inner { inner.old.items ≡ [] }
    ensures { OnSome result (json_of text.now
        ≡ Some (object (puts (inner_members inner.new.items) members.new.items no_members))) }
{
    match take_members(text, members, spares)? {
        (Pause::End, rest) => ended(rest),
        (Pause::Inner, rest) => {
            let rest = take_rest(rest, inner, spares)?;
            ended(take_rest(rest, members, spares)?)
        }
    }
}
