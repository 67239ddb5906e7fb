ghost use Rattle.std.specs.Prelude.{◌≡◌, ◌<◌, ◌+◌, ◌∷◌, ◌++◌, IfNone, IfSome, codes, drop, length, take};
ghost use Rattle.scenario_text.specs.MigratedLines.{lines_of, lines_after};
ghost use Rattle.scenario_text.specs.Migrated.{is_blank as blank_in, migrated_line, migrated as migrated_in};

use memchr::memchr;

/// The first line of a text, and what follows its end where it has one.
fn split_line(text: &[u8]) -> (&[u8], Option<&[u8]>)
    ensures { lines_of text.now ≡ result.0.now ∷ lines_after result.1 }
{
    match memchr(b'\n', text) {
        None => (text, None),
        Some(end) => (&text[..end], Some(&text[end + 1..])),
    }
}

/// Whether a line is empty or a comment.
fn is_blank(line: &[u8]) -> bool
    ensures { result ≡ blank_in line.now }
{
    match line.first() {
        None => true,
        Some(octet) => *octet == b'#',
    }
}

/// The place of the digit of `scenario 1`, from 0, where the line is this one.
fn digit_in(line: &[u8]) -> Option<usize>
    ensures within { IfSome result (λ at. at < length line.now) }
    ensures one { IfSome result (λ at. line.now ≡ take at line.now ++ (codes "1" ++ drop (at + 1) line.now)) }
    ensures two { IfSome result (λ at. migrated_line line.now ≡ take at line.now ++ (codes "2" ++ drop (at + 1) line.now)) }
    ensures none { IfNone result (migrated_line line.now ≡ line.now) }
{
    if line == b"scenario 1".as_slice() {
        Some(9)
    } else {
        None
    }
}

/// The place, from 0, of the one octet of a text that is another one in version 2: `1` stands there, and `2` does in version 2.
/// It is the digit of the first line that is neither empty nor a comment, where this line is `scenario 1`. Any other text is
/// the same in version 2, and has no such place.
pub fn changed_digit(text: &[u8]) -> Option<usize>
    ensures within { IfSome result (λ at. at < length text.now) }
    ensures one { IfSome result (λ at. text.now ≡ take at text.now ++ (codes "1" ++ drop (at + 1) text.now)) }
    ensures two { IfSome result (λ at. migrated_in text.now ≡ take at text.now ++ (codes "2" ++ drop (at + 1) text.now)) }
    ensures none { IfNone result (migrated_in text.now ≡ text.now) }
{
    let mut start = 0;
    'blanks: loop {
        let (line, rest) = split_line(&text[start..]);
        if !is_blank(line) {
            return match digit_in(line) {
                None => None,
                Some(at) => Some(start + at),
            };
        }
        if rest.is_none() {
            return None;
        }
        start += line.len() + 1;
    }
}
