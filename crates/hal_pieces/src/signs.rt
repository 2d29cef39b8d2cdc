//! Symbols of one byte and of two.

ghost use Rattle.std.specs.Prelude.{◌≡◌};
ghost use Rattle.hal_words.specs.Pieces.{pair, sign, signs};
ghost use Rattle.hal_pieces.specs.Seen.{seen};

use crate::piece::Piece;
use hal_base::Rule;
use hal_base::rules::{AT_SIGN_LEFT_OUT, PERCENT_SIGN_LEFT_OUT, SLASH_LEFT_OUT, STRAY_BYTE};
use hal_words::{Reserved, Symbol, Word};

/// The symbol that a byte begins, the longer one before the shorter, and its size.
pub(crate) fn signs<'a>(first: u8, rest: &[u8]) -> (Piece<'a>, usize)
    ensures what { seen result.0 ≡ (signs first rest.now).0 }
    ensures size { result.1 ≡ (signs first rest.now).1 }
{
    match rest {
        [second, ..] => match pair(first, *second) {
            Some(word) => (Piece::Word(word), 2),
            None => (sign(first), 1),
        },
        [] => (sign(first), 1),
    }
}

/// The symbol of two bytes.
fn pair(first: u8, second: u8) -> Option<Word>
    ensures { result ≡ pair first second }
{
    match (first, second) {
        (b'*', b'*') => Some(Word::Symbol(Symbol::Power)),
        (b'|', b'|') => Some(Word::Reserved(Reserved::Cat)),
        (b'<', b'=') => Some(Word::Symbol(Symbol::AtMost)),
        (b'>', b'=') => Some(Word::Symbol(Symbol::AtLeast)),
        _ => None,
    }
}

/// The symbol of one byte, or the rule that it breaks.
fn sign<'a>(byte: u8) -> Piece<'a>
    ensures { seen result ≡ sign byte }
{
    match byte {
        b'+' => Piece::Word(Word::Symbol(Symbol::Plus)),
        b'-' => Piece::Word(Word::Symbol(Symbol::Minus)),
        b'*' => Piece::Word(Word::Symbol(Symbol::Star)),
        b'.' => Piece::Word(Word::Symbol(Symbol::Point)),
        b'|' => Piece::Word(Word::Reserved(Reserved::Or)),
        b'&' => Piece::Word(Word::Reserved(Reserved::And)),
        b'=' => Piece::Word(Word::Symbol(Symbol::Equals)),
        b'<' => Piece::Word(Word::Symbol(Symbol::Less)),
        b'>' => Piece::Word(Word::Symbol(Symbol::Greater)),
        b'(' => Piece::Word(Word::Symbol(Symbol::LeftParenthesis)),
        b')' => Piece::Word(Word::Symbol(Symbol::RightParenthesis)),
        b',' => Piece::Word(Word::Symbol(Symbol::Comma)),
        b';' => Piece::Word(Word::Symbol(Symbol::Semicolon)),
        b':' => Piece::Word(Word::Symbol(Symbol::Colon)),
        b'$' => Piece::Word(Word::Symbol(Symbol::Dollar)),
        b'#' => Piece::Word(Word::Symbol(Symbol::Number)),
        b'/' => Piece::Wrong(Rule(SLASH_LEFT_OUT)),
        b'%' => Piece::Wrong(Rule(PERCENT_SIGN_LEFT_OUT)),
        b'@' => Piece::Wrong(Rule(AT_SIGN_LEFT_OUT)),
        _ => Piece::Wrong(Rule(STRAY_BYTE)),
    }
}
