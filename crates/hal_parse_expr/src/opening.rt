//! What the first word of a primary opens.

ghost use Rattle.std.specs.Prelude.{◌≡◌};
ghost use Rattle.hal_parse_expr.specs.Openings.{opens};

use hal_tree::{Conversion, LiteralValue};
use hal_words::{Name, Reserved, Symbol, Word};

/// A word with which a primary begins.
#[derive(Clone, Copy)]
pub(crate) enum Opening {
    Name(Name),
    /// In thousandths.
    Decimal(u64),
    Parenthesis,
    Not,
    Literal(LiteralValue),
    Conversion(Conversion),
}

/// What a word opens.
#[tactic(auto, unfolding(crate::specs::Openings::opens))]
pub(crate) fn opened_by(word: &Word) -> Option<Opening>
    ensures { result ≡ opens word.now }
{
    match word {
        Word::Name(name) => Some(Opening::Name(*name)),
        Word::Decimal(thousandths) => Some(Opening::Decimal(*thousandths)),
        Word::Symbol(Symbol::LeftParenthesis) => Some(Opening::Parenthesis),
        Word::Reserved(Reserved::Not) => Some(Opening::Not),
        Word::Integer(number) => Some(Opening::Literal(LiteralValue::Integer(*number))),
        Word::Text(text) => Some(Opening::Literal(LiteralValue::Text(text.literal()))),
        Word::Bits { len, word } => Some(Opening::Literal(LiteralValue::Bits {
            len: *len,
            word: *word,
        })),
        Word::Reserved(Reserved::True) => Some(Opening::Literal(LiteralValue::True)),
        Word::Reserved(Reserved::False) => Some(Opening::Literal(LiteralValue::False)),
        Word::Reserved(Reserved::On) => Some(Opening::Literal(LiteralValue::On)),
        Word::Reserved(Reserved::Off) => Some(Opening::Literal(LiteralValue::Off)),
        Word::Reserved(Reserved::Integer) => Some(Opening::Conversion(Conversion::Integer)),
        Word::Reserved(Reserved::Bit) => Some(Opening::Conversion(Conversion::Bit)),
        Word::Reserved(Reserved::Character) => Some(Opening::Conversion(Conversion::Character)),
        _ => None,
    }
}
