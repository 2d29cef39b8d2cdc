//! The texts of definitions, between two `"`.

ghost use Rattle.std.specs.Prelude.{◌≡◌, map};
ghost use Rattle.hal_words.specs.Pieces.{piece_or_text, replacement};
ghost use Rattle.hal_words.specs.Items.{are_opening, ends_parameters, is_by, is_replace, opens_text};
ghost use Rattle.hal_pieces.specs.Seen.{seen, seen_right};
ghost use Rattle.hal_pieces.specs.Faults.{seen_item};

use crate::item::{Item, RightPiece};
use crate::piece::{Piece, first_piece};
use crate::runs::{Class, front};
use hal_words::{Reserved, Symbol, Word};

/// What the text, which doesn't begin with a blank or a comment, begins with behind these items, and how
/// many bytes that takes.
pub(crate) fn piece_behind<'a>(items: &[Item<'a>], text: &'a [u8]) -> (Piece<'a>, usize)
    ensures what { seen result.0 ≡ (piece_or_text (opens_text (map seen_item items.now)) text.now).0 }
    ensures size { result.1 ≡ (piece_or_text (opens_text (map seen_item items.now)) text.now).1 }
{
    match text {
        [] => first_piece(text),
        [first, rest @ ..] => {
            if *first == b'"' && opens_text(items) {
                replacement(rest)
            } else {
                first_piece(text)
            }
        }
    }
}

/// Whether a `"` behind these items opens the text of a definition, though it be faulty.
fn opens_text(items: &[Item]) -> bool
    ensures { result ≡ opens_text (map seen_item items.now) }
{
    match items.split_at(items.len().saturating_sub(3)).1 {
        [first] => is_replace(&first.piece),
        [first, second] => is_replace(&first.piece) || is_replace(&second.piece),
        [first, second, third] => are_opening(&first.piece, &second.piece, &third.piece),
        _ => false,
    }
}

/// REPLACE with at most two items behind it, or the end of a list of parameters and BY.
fn are_opening(first: &RightPiece, second: &RightPiece, third: &RightPiece) -> bool
    ensures { result ≡ are_opening (seen_right first.now) (seen_right second.now) (seen_right third.now) }
{
    is_replace(first)
        || is_replace(second)
        || is_replace(third)
        || (ends_parameters(second) && is_by(third))
}

/// The word REPLACE.
fn is_replace(piece: &RightPiece) -> bool
    ensures { result ≡ is_replace (seen_right piece.now) }
{
    matches!(piece, RightPiece::Word(Word::Reserved(Reserved::Replace)))
}

/// The end of a list.
fn ends_parameters(piece: &RightPiece) -> bool
    ensures { result ≡ ends_parameters (seen_right piece.now) }
{
    matches!(
        piece,
        RightPiece::Word(Word::Symbol(Symbol::RightParenthesis))
    )
}

/// The word BY.
fn is_by(piece: &RightPiece) -> bool
    ensures { result ≡ is_by (seen_right piece.now) }
{
    matches!(piece, RightPiece::Word(Word::Reserved(Reserved::By)))
}

/// The text of a replacement, behind the `"` that begins it, and its size with both marks.
fn replacement(text: &[u8]) -> (Piece<'_>, usize)
    ensures what { seen result.0 ≡ (replacement text.now).0 }
    ensures size { result.1 ≡ (replacement text.now).1 }
{
    let (bytes, rest) = front(Class::NoMark, text);
    match rest {
        [b'"', ..] => (Piece::Replacement(bytes), bytes.len() + 2),
        _ => (Piece::Open, text.len() + 1),
    }
}
