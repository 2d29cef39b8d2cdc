//! Text literals.

ghost use Rattle.std.specs.Prelude.{◌≡◌, ◌<◌, ◌≤◌, ◌+◌, ◌-◌, ◌++◌, ◌∷◌, [], length, take, IfSome, IfNone};
ghost use Rattle.hal_words.specs.Literals.{inside, with_byte, blank_for_tab};
ghost use Rattle.hal_words.specs.Pieces.{literal};
ghost use Rattle.hal_pieces.specs.LiteralParts.{at_end, text_or_wrong};
ghost use Rattle.hal_pieces.specs.Seen.{seen, seen_literal};

use crate::bytes::is_plain;
use crate::piece::Piece;
use hal_base::rules::{INVALID_LITERAL, STRAY_BYTE, UNENDED_LITERAL_OR_COMMENT};
use hal_base::{CHARACTER_LIMIT, Rule};
use hal_words::Literal;

/// A text literal, behind the quote that begins it, and its size with both quotes.
pub(crate) fn literal(text: &[u8]) -> (Piece<'_>, usize)
    ensures what { seen result.0 ≡ (literal text.now).0 }
    ensures size { result.1 ≡ (literal text.now).1 }
{
    (Piece::Text(text), literal_size(text))
}

/// How many bytes a text literal takes with both quotes.
fn literal_size(text: &[u8]) -> usize
    ensures { result ≡ (literal text.now).1 }
{
    let mut rest = text;
    'byte: while let Some((_, more)) = next_byte(rest) {
        rest = more;
    }
    if rest.is_empty() {
        text.len() + 1
    } else {
        text.len() - rest.len() + 2
    }
}

/// The text literal that stands behind the quote that begins it.
///
/// # Errors
///
/// The rule that it breaks: 201, 202 or 204 (language document, Words).
pub fn literal_in(text: &[u8]) -> Result<Literal, Rule>
    ensures { seen_literal result ≡ (literal text.now).0 }
{
    let mut bytes = [0; CHARACTER_LIMIT];
    let mut count = 0;
    let mut plain = true;
    let mut rest = text;
    'byte: while let Some((byte, more)) = next_byte(rest) {
        store(&mut bytes, count, byte);
        count += 1;
        plain = plain && is_plain(byte);
        rest = more;
    }
    if rest.is_empty() {
        return Err(Rule(UNENDED_LITERAL_OR_COMMENT));
    }
    literal_of(&bytes, count, plain)
}

/// The next byte of a literal, and what follows it; a doubled quote is one. None at the quote that ends
/// the literal and at the line's end.
fn next_byte(text: &[u8]) -> Option<(u8, &[u8])>
    ensures next { IfSome result (λ next. inside text.now
        ≡ with_byte next.0 (length text.now - length next.1.now) (inside next.1.now)) }
    ensures shorter { IfSome result (λ next. length next.1.now < length text.now) }
    ensures end { IfNone result (inside text.now ≡ at_end text.now) }
{
    match text {
        [b'\'', b'\'', more @ ..] => Some((b'\'', more)),
        [b'\'', ..] | [] => None,
        [byte, more @ ..] => Some((*byte, more)),
    }
}

/// Stores a byte of a literal, if it has room; a tab is a blank there.
fn store(bytes: &mut [u8; CHARACTER_LIMIT], count: usize, byte: u8)
    ensures length { length bytes.new ≡ 255 }
    ensures stored { count < 255 → take (count + 1) bytes.new
        ≡ take count bytes.old ++ blank_for_tab byte ∷ [] }
{
    if count < CHARACTER_LIMIT {
        bytes[count] = if byte == b'\t' { b' ' } else { byte };
    }
}

/// The literal of so many stored bytes.
fn literal_of(bytes: &[u8; CHARACTER_LIMIT], count: usize, plain: bool) -> Result<Literal, Rule>
    ensures { seen_literal result ≡ text_or_wrong plain count (take count bytes.now) }
{
    if !plain {
        Err(Rule(STRAY_BYTE))
    } else if count <= CHARACTER_LIMIT {
        Ok(Literal::new(&bytes[..count]))
    } else {
        Err(Rule(INVALID_LITERAL))
    }
}
