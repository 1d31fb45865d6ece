//! Bodies of messages, as they stand between the quotes of JSON.
use crate::common::Draws;
use crate::lines::Lines;
use std::io;

/// Words of an order's note.
const WORDS: [&str; 16] = [
    "leave", "at", "the", "back", "door", "gift", "wrapped", "please", "ring", "twice", "fragile",
    "before", "noon", "call", "first", "thanks",
];

/// Parts of a letter. Some have characters of other alphabets, some say them by escapes.
const PARTS: [&str; 16] = [
    "The delivery of last week has not come yet. ",
    "Gr\u{fc}\u{df}e aus K\u{f6}ln, ",
    "\\u00a1Hola! \\u00bfQu\\u00e9 tal? ",
    "\\\"as is\\\" ",
    "\u{65e5}\u{672c}\u{8a9e}\u{306e}\u{6587}\u{7ae0}\u{3002}",
    "\\n\\n",
    "a path such as C:\\\\orders\\\\2024 ",
    "\u{1f600}\u{1f680} ",
    "\\ud83d\\ude00\\ud83d\\ude80 ",
    "\u{41f}\u{440}\u{438}\u{432}\u{435}\u{442}, \u{43c}\u{438}\u{440}! ",
    "0123456789012345678901234567890123456789012345678901234567890123456789",
    "\\t1\\t2\\t3\\r\\n",
    "https:\\/\\/shop.example\\/orders?id=17&page=2 ",
    "and so on, and so on, ",
    "\u{3b1}\u{3b2}\u{3b3}\u{3b4}\u{3b5} ",
    "<p class='note'>see above</p> ",
];

/// One of these texts.
fn one_of<'a>(draws: &mut Draws, texts: &[&'a str]) -> &'a str {
    let place = draws.below(texts.len() as u64) as usize;
    texts.get(place).copied().unwrap_or("")
}

/// Writes a note of so many words.
fn write_note(draws: &mut Draws, lines: &mut Lines, words: u64) -> io::Result<()> {
    for _ in 0..words {
        lines.text(one_of(draws, &WORDS))?;
        lines.text(" ")?;
    }
    Ok(())
}

/// Writes an order: an object of JSON, whose quotes are escaped.
pub fn write_order(draws: &mut Draws, lines: &mut Lines, number: u64) -> io::Result<()> {
    lines.text("{\\\"order\\\":")?;
    lines.number(number)?;
    lines.text(",\\\"customer\\\":")?;
    lines.number(draws.below(1_000_000))?;
    lines.text(",\\\"currency\\\":\\\"EUR\\\",\\\"total\\\":")?;
    lines.number(draws.below(100_000))?;
    lines.text(".95,\\\"note\\\":\\\"")?;
    let words = draws.below(24);
    write_note(draws, lines, words)?;
    lines.text("\\\"}")
}

/// Writes a letter of some parts, up to 60.
pub fn write_letter(draws: &mut Draws, lines: &mut Lines) -> io::Result<()> {
    let parts = draws.below(60).saturating_add(1);
    for _ in 0..parts {
        lines.text(one_of(draws, &PARTS))?;
    }
    Ok(())
}
