ghost use Rattle.std.specs.Prelude.{◌≡◌};
ghost use Rattle.hal_words.specs.Pieces.{piece};
ghost use Rattle.hal_pieces.specs.Seen.{seen};

use crate::bytes::is_letter;
use crate::letters::letters;
use crate::literals::literal;
use crate::numbers::{begins_number, number};
use crate::signs::signs;
use hal_base::Rule;
use hal_base::rules::STRAY_BYTE;
use hal_words::Word;

/// What a line begins with.
#[derive(Drop)]
pub enum Piece<'a> {
    /// The longest word, if it is no text literal.
    Word(Word),
    /// A text literal, by what stands behind the quote that begins it. Which text it is, or which rule it breaks, is read where it is kept, so that a piece is
    /// small.
    Text(&'a [u8]),
    /// The text of a definition, between two `"`.
    Replacement(&'a [u8]),
    /// A `"` that opens such a text, without another one on the line.
    Open,
    /// A broken rule.
    Wrong(Rule),
}

/// What the text, which doesn't begin with a blank or a comment, begins with, and how many bytes that
/// takes. A `"` begins no word here: whether it opens a text depends on what stands before it.
pub fn first_piece(text: &[u8]) -> (Piece<'_>, usize)
    ensures what { seen result.0 ≡ (piece text.now).0 }
    ensures size { result.1 ≡ (piece text.now).1 }
{
    match text {
        [] => (Piece::Wrong(Rule(STRAY_BYTE)), 1),
        [first, rest @ ..] => {
            if is_letter(*first) {
                letters(text)
            } else if begins_number(text) {
                number(text)
            } else if *first == b'\'' {
                literal(rest)
            } else {
                signs(*first, rest)
            }
        }
    }
}
