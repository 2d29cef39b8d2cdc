use crate::boxed_literal::BoxedLiteral;
use crate::name::Name;
use crate::reserved::Reserved;
use hal_base::Place;
use std::alloc::{AllocError, Global};

/// A symbol. `&`, `|` and `||` are no symbols: they are the reserved words AND, OR and CAT.
#[derive(Clone, Copy, Debug, PartialEq, Eq)]
pub enum Symbol {
    Plus,
    Minus,
    /// `**`
    Power,
    Star,
    Point,
    Equals,
    Less,
    Greater,
    AtMost,
    AtLeast,
    LeftParenthesis,
    RightParenthesis,
    Comma,
    Semicolon,
    Colon,
    Dollar,
    Number,
}

/// A word of the source.
#[derive(Drop)]
pub enum Word {
    Reserved(Reserved),
    Name(Name),
    /// 0 to 2147483647.
    Integer(u32),
    /// A number with a point, in thousandths.
    Decimal(u64),
    Text(BoxedLiteral),
    /// The last `len` bits of the word, 1 to 32.
    Bits { len: u8, word: u32 },
    Symbol(Symbol),
}

impl Word {
    ghost use Rattle.std.specs.Prelude.{◌≡◌, IfOk};

    /// A copy of the word, or want of memory.
    pub fn copy(&self, alloc: Global) -> Result<Word, AllocError>
        ensures { IfOk result (λ copy. copy ≡ self.now) }
    {
        match self {
            Word::Reserved(reserved) => Ok(Word::Reserved(*reserved)),
            Word::Name(name) => Ok(Word::Name(*name)),
            Word::Integer(number) => Ok(Word::Integer(*number)),
            Word::Decimal(thousandths) => Ok(Word::Decimal(*thousandths)),
            Word::Text(text) => Ok(Word::Text(BoxedLiteral::new(alloc, text.literal())?)),
            Word::Bits { len, word } => Ok(Word::Bits {
                len: *len,
                word: *word,
            }),
            Word::Symbol(symbol) => Ok(Word::Symbol(*symbol)),
        }
    }
}

/// A word and the place of its first byte; of a word that stands in place of a name, the name's place.
#[derive(Drop)]
pub struct Token {
    pub word: Word,
    pub place: Place,
}
