//! Where lines end, and which are blank.
ghost use Rattle.std.specs.Prelude.{◌≡◌, option_map};
ghost use Rattle.std.specs.List.{list_all};
ghost use Rattle.cq_lines.specs.Lines.{is_blank_byte, IsCut};

use memchr::memchr;

/// The first line of these bytes, without its line feed, and the bytes after it, if a line ends in them: O(bytes of the
/// line).
pub fn cut_line(bytes: &[u8]) -> Option<(&[u8], &[u8])>
    ensures { IsCut bytes.now (option_map (λ cut. (cut.0.now, cut.1.now)) result) }
{
    let place = memchr(b'\n', bytes)?;
    let (line, rest) = bytes.split_at(place);
    let (_, later) = rest.split_at(1);
    Some((line, later))
}

/// Whether the line has nothing but spaces, tabs and carriage returns: O(bytes).
pub fn is_blank(bytes: &[u8]) -> bool
    ensures { result ≡ list_all is_blank_byte bytes.now }
{
    bytes
        .iter()
        .all(|byte| *byte == b' ' || *byte == b'\t' || *byte == b'\r')
}
