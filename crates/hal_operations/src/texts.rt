//! Operations on texts, which have at most 255 bytes.

ghost use Rattle.std.specs.Prelude.{◌≡◌, ◌≤◌, length, take, reverse, pos};
ghost use Rattle.hal_operations.specs.Texts.{blanks, joined_text, is_before, index, left_justified, right_justified, is_width, width, after_blanks, trimmed};
ghost use Rattle.hal_operations.specs.Parts.{taken, patched_text};

use hal_base::CHARACTER_LIMIT;
use hal_values::Text;

/// The first `n` bytes.
pub(crate) fn front(n: u8, text: &[u8]) -> Text
    ensures { result ≡ take n text.now }
{
    let mut front = Text::new();
    front.extend(text.split_at(text.len().min(usize::from(n))).0);
    front
}

/// So many blanks.
fn blanks(n: u8) -> Text
    ensures { result ≡ blanks n }
{
    front(n, &[b' '; CHARACTER_LIMIT])
}

/// Joins bytes to a text, of which the first 255 are kept then.
#[tactic(auto, using(crate::proofs::TextLists::joined_text_is))]
pub(crate) fn append(text: &mut Text, bytes: &[u8])
    ensures { text.new ≡ joined_text text.old bytes.now }
{
    let room = CHARACTER_LIMIT - text.bytes().len();
    text.extend(bytes.split_at(room.min(bytes.len())).0);
}

/// Two texts joined, of which the first 255 bytes are kept.
pub(crate) fn joined(x: &[u8], y: &[u8]) -> Text
    requires { length x.now ≤ 255 }
    ensures { result ≡ joined_text x.now y.now }
{
    let mut text = Text::new();
    text.extend(x);
    append(&mut text, y);
    text
}

/// Whether the one text comes before the other by its bytes, a prefix first.
pub(crate) fn is_before(x: &[u8], y: &[u8]) -> bool
    ensures { result ≡ is_before x.now y.now }
{
    x < y
}

/// The first place, from 1, at which the bytes stand in the text; 0 where they don't, or are none. See docs/LANGUAGE.md, "Operations".
pub fn index(text: &[u8], bytes: &[u8]) -> i32
    requires { length text.now ≤ 255 }
    ensures { result ≡ pos (index text.now bytes.now) }
{
    if bytes.is_empty() {
        return 0;
    }
    for at in 0..text.len() {
        if text.split_at(at).1.starts_with(bytes) {
            return at as i32 + 1;
        }
    }
    0
}

/// The text with `n` bytes: blanks added or bytes cut on the right.
pub(crate) fn left_justified(n: u8, text: &[u8]) -> Text
    ensures { result ≡ left_justified n text.now }
{
    let mut line = front(n, text);
    let room = usize::from(n) - line.bytes().len();
    line.extend(blanks(room as u8).bytes());
    line
}

/// The text with `n` bytes: blanks added or bytes cut on the left.
#[tactic(auto, using(crate::proofs::TextLists::right_justified_is))]
pub(crate) fn right_justified(n: u8, text: &[u8]) -> Text
    ensures { result ≡ right_justified n text.now }
{
    let room = usize::from(n);
    let mut line = blanks(room.saturating_sub(text.len()) as u8);
    line.extend(text.split_at(text.len().saturating_sub(room)).1);
    line
}

/// Whether a justified text may have this length.
pub(crate) fn is_width(n: i32) -> bool
    ensures { result ≡ is_width n }
{
    u8::try_from(n).is_ok()
}

/// The nearest length that a justified text may have.
pub(crate) fn width(n: i32) -> u8
    ensures { result ≡ width n }
{
    n.clamp(0, CHARACTER_LIMIT as i32) as u8
}

/// Without the blanks that it begins with.
fn after_blanks(text: &[u8]) -> &[u8]
    ensures value { result.now ≡ after_blanks text.now }
    ensures shorter { length result.now ≤ length text.now }
{
    let mut rest = text;
    'first: while let [b' ', more @ ..] = rest {
        rest = more;
    }
    rest
}

/// Without the blanks that it ends with.
fn before_blanks(text: &[u8]) -> &[u8]
    ensures value { result.now ≡ reverse (after_blanks (reverse text.now)) }
    ensures shorter { length result.now ≤ length text.now }
{
    let mut rest = text;
    'last: while let [more @ .., b' '] = rest {
        rest = more;
    }
    rest
}

/// Without blanks at both ends.
pub(crate) fn trimmed(text: &[u8]) -> Text
    requires { length text.now ≤ 255 }
    ensures { result ≡ trimmed text.now }
{
    let mut trimmed = Text::new();
    trimmed.extend(before_blanks(after_blanks(text)));
    trimmed
}

/// The bytes of a part.
pub(crate) fn taken(from: u8, to: u8, text: &[u8]) -> Text
    requires order { from ≤ to }
    requires bound { to ≤ length text.now }
    ensures { result ≡ taken from to text.now }
{
    let mut part = Text::new();
    part.extend(
        text.split_at(usize::from(to))
            .0
            .split_at(usize::from(from))
            .1,
    );
    part
}

/// A text with another one in place of a part.
pub(crate) fn patched(from: u8, to: u8, new: &[u8], text: &[u8]) -> Text
    requires order { from ≤ to }
    requires bound { to ≤ length text.now }
    requires room { length text.now ≤ 255 }
    ensures { result ≡ patched_text from to new.now text.now }
{
    let mut patched = front(from, text);
    patched.extend(left_justified(to - from, new).bytes());
    patched.extend(text.split_at(usize::from(to)).1);
    patched
}
