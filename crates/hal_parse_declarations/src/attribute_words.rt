//! What the first word of a type or of an attribute begins.

ghost use Rattle.std.specs.Prelude.{◌≡◌};
ghost use Rattle.hal_parse_declarations.specs.DeclarationWords.{attribute_word_of, type_word_of};

use hal_tree::Mark;
use hal_words::{Name, Reserved, Word};

/// A word with which a type begins.
#[derive(Clone, Copy)]
pub(crate) enum TypeWord {
    Integer,
    Bit,
    Boolean,
    Character,
    Event,
    /// The name of a template.
    Template(Name),
}

/// A word with which an attribute begins.
#[derive(Clone, Copy)]
pub(crate) enum AttributeWord {
    Array,
    Lock,
    Initial,
    Constant,
    Marked(Mark),
    Typed(TypeWord),
}

/// The type that a word begins.
#[tactic(auto, unfolding(crate::specs::DeclarationWords::type_word_of))]
pub(crate) fn type_word_of(word: &Word) -> Option<TypeWord>
    ensures { result ≡ type_word_of word.now }
{
    match word {
        Word::Reserved(Reserved::Integer) => Some(TypeWord::Integer),
        Word::Reserved(Reserved::Bit) => Some(TypeWord::Bit),
        Word::Reserved(Reserved::Boolean) => Some(TypeWord::Boolean),
        Word::Reserved(Reserved::Character) => Some(TypeWord::Character),
        Word::Reserved(Reserved::Event) => Some(TypeWord::Event),
        Word::Name(name) => Some(TypeWord::Template(*name)),
        _ => None,
    }
}

/// The attribute that a word begins.
#[tactic(auto, unfolding(crate::specs::DeclarationWords::attribute_word_of))]
pub(crate) fn attribute_word_of(word: &Word) -> Option<AttributeWord>
    ensures { result ≡ attribute_word_of word.now }
{
    match word {
        Word::Reserved(Reserved::Array) => Some(AttributeWord::Array),
        Word::Reserved(Reserved::Lock) => Some(AttributeWord::Lock),
        Word::Reserved(Reserved::Initial) => Some(AttributeWord::Initial),
        Word::Reserved(Reserved::Constant) => Some(AttributeWord::Constant),
        Word::Reserved(Reserved::Single) => Some(AttributeWord::Marked(Mark::Single)),
        Word::Reserved(Reserved::Double) => Some(AttributeWord::Marked(Mark::Double)),
        Word::Reserved(Reserved::Latched) => Some(AttributeWord::Marked(Mark::Latched)),
        Word::Reserved(Reserved::Static) => Some(AttributeWord::Marked(Mark::Static)),
        Word::Reserved(Reserved::Automatic) => Some(AttributeWord::Marked(Mark::Automatic)),
        Word::Reserved(Reserved::Dense) => Some(AttributeWord::Marked(Mark::Dense)),
        Word::Reserved(Reserved::Aligned) => Some(AttributeWord::Marked(Mark::Aligned)),
        Word::Reserved(Reserved::Integer) => Some(AttributeWord::Typed(TypeWord::Integer)),
        Word::Reserved(Reserved::Bit) => Some(AttributeWord::Typed(TypeWord::Bit)),
        Word::Reserved(Reserved::Boolean) => Some(AttributeWord::Typed(TypeWord::Boolean)),
        Word::Reserved(Reserved::Character) => Some(AttributeWord::Typed(TypeWord::Character)),
        Word::Reserved(Reserved::Event) => Some(AttributeWord::Typed(TypeWord::Event)),
        Word::Name(name) => Some(AttributeWord::Typed(TypeWord::Template(*name))),
        _ => None,
    }
}
