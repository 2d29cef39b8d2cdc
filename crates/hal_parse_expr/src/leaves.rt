//! Signs, relations, names, integers, literals: what one word or two say.

ghost use Rattle.std.specs.Prelude.{◌≡◌, IfOk};
ghost use Rattle.std.specs.Option.{option_map};
ghost use Rattle.hal_tree.specs.SeenLeaves.{seen_literal, seen_name, seen_relation, seen_sign};
ghost use Rattle.hal_parse_expr.specs.Reading.{all, integer_at, name_at};
ghost use Rattle.hal_parse_expr.specs.ReadingExpressions.{further_at, literal_of, negated_relation, plain_relation, relation_at, said, sign_at, sign_of};
ghost use Rattle.hal_parse_expr.specs.Seen.{seen_as, seen_list, seen_placed};

use crate::leading::{past, past_symbol};
use hal_base::Place;
use hal_tree::{Identifier, LiteralValue, Relation, Sign};
use hal_words::{Reserved, Symbol, Token, Word};
use std::alloc::{AllocError, Global};

/// The sign that a word is.
#[tactic(auto, unfolding(crate::specs::ReadingExpressions::sign_of))]
fn sign_of(word: &Word) -> Option<Sign>
    ensures { option_map seen_sign result ≡ sign_of word.now }
{
    match word {
        Word::Symbol(Symbol::Plus) => Some(Sign::Plus),
        Word::Symbol(Symbol::Minus) => Some(Sign::Minus),
        _ => None,
    }
}

/// A sign and its place.
#[tactic(auto, unfolding(crate::specs::ReadingExpressions::sign_at, crate::specs::Seen::seen_placed))]
pub fn sign(words: &[Token]) -> Option<(Place, Sign, &[Token])>
    ensures { seen_placed seen_sign result ≡ sign_at words.now }
{
    let Some((first, rest)) = words.split_first() else {
        return None;
    };
    let Some(sign) = sign_of(&first.word) else {
        return None;
    };
    Some((first.place, sign, rest))
}

/// The relation that a symbol is.
#[tactic(auto, unfolding(crate::specs::ReadingExpressions::plain_relation))]
fn plain_relation(word: &Word) -> Option<Relation>
    ensures { option_map seen_relation result ≡ plain_relation word.now }
{
    match word {
        Word::Symbol(Symbol::Equals) => Some(Relation::Equal),
        Word::Symbol(Symbol::Less) => Some(Relation::Less),
        Word::Symbol(Symbol::Greater) => Some(Relation::Greater),
        Word::Symbol(Symbol::AtMost) => Some(Relation::AtMost),
        Word::Symbol(Symbol::AtLeast) => Some(Relation::AtLeast),
        _ => None,
    }
}

/// The relation that a symbol behind NOT is.
#[tactic(auto, unfolding(crate::specs::ReadingExpressions::negated_relation))]
fn negated_relation(word: &Word) -> Option<Relation>
    ensures { option_map seen_relation result ≡ negated_relation word.now }
{
    match word {
        Word::Symbol(Symbol::Equals) => Some(Relation::NotEqual),
        Word::Symbol(Symbol::Less) => Some(Relation::NotLess),
        Word::Symbol(Symbol::Greater) => Some(Relation::NotGreater),
        _ => None,
    }
}

/// A relation of one symbol.
#[tactic(auto, unfolding(crate::specs::ReadingExpressions::said, crate::specs::Seen::seen_as))]
fn plain(words: &[Token]) -> Option<(Relation, &[Token])>
    ensures { seen_as seen_relation result ≡ said plain_relation words.now }
{
    let Some((first, rest)) = words.split_first() else {
        return None;
    };
    let Some(relation) = plain_relation(&first.word) else {
        return None;
    };
    Some((relation, rest))
}

/// The symbol of a relation behind NOT.
#[tactic(auto, unfolding(crate::specs::ReadingExpressions::said, crate::specs::Seen::seen_as))]
fn negated(words: &[Token]) -> Option<(Relation, &[Token])>
    ensures { seen_as seen_relation result ≡ said negated_relation words.now }
{
    let Some((first, rest)) = words.split_first() else {
        return None;
    };
    let Some(relation) = negated_relation(&first.word) else {
        return None;
    };
    Some((relation, rest))
}

/// A relation.
#[tactic(auto, unfolding(crate::specs::ReadingExpressions::relation_at, crate::specs::Reading::or_else, crate::specs::Reading::followed, crate::specs::Seen::seen, crate::specs::Seen::seen_as))]
pub(crate) fn relation(words: &[Token]) -> Option<(Relation, &[Token])>
    ensures { seen_as seen_relation result ≡ relation_at words.now }
{
    if let Some((relation, rest)) = plain(words) {
        return Some((relation, rest));
    }
    let Some((_, rest)) = past(words, Reserved::Not) else {
        return None;
    };
    negated(rest)
}

/// A name.
#[tactic(auto, unfolding(crate::specs::Reading::name_at, crate::specs::Seen::seen_as))]
pub fn name(words: &[Token]) -> Option<(Identifier, &[Token])>
    ensures { seen_as seen_name result ≡ name_at words.now }
{
    let Some((first, rest)) = words.split_first() else {
        return None;
    };
    match first.word {
        Word::Name(name) => Some((
            Identifier {
                place: first.place,
                name,
            },
            rest,
        )),
        _ => None,
    }
}

/// An integer and its place.
#[tactic(auto, unfolding(crate::specs::Reading::integer_at, crate::specs::Seen::seen_placed))]
pub fn integer(words: &[Token]) -> Option<(Place, u32, &[Token])>
    ensures { seen_placed (λ n. n) result ≡ integer_at words.now }
{
    let Some((first, rest)) = words.split_first() else {
        return None;
    };
    match first.word {
        Word::Integer(number) => Some((first.place, number, rest)),
        _ => None,
    }
}

/// The literal that a word is.
#[tactic(auto, unfolding(crate::specs::ReadingExpressions::literal_of))]
pub fn literal_of(word: &Word) -> Option<LiteralValue>
    ensures { option_map seen_literal result ≡ literal_of word.now }
{
    match word {
        Word::Integer(number) => Some(LiteralValue::Integer(*number)),
        Word::Text(text) => Some(LiteralValue::Text(text.literal())),
        Word::Bits { len, word } => Some(LiteralValue::Bits {
            len: *len,
            word: *word,
        }),
        Word::Reserved(Reserved::True) => Some(LiteralValue::True),
        Word::Reserved(Reserved::False) => Some(LiteralValue::False),
        Word::Reserved(Reserved::On) => Some(LiteralValue::On),
        Word::Reserved(Reserved::Off) => Some(LiteralValue::Off),
        _ => None,
    }
}

/// A point and a name.
#[tactic(auto, unfolding(crate::specs::ReadingExpressions::further_at, crate::specs::Reading::followed, crate::specs::Seen::seen, crate::specs::Seen::seen_as))]
fn point_name(words: &[Token]) -> Option<(Identifier, &[Token])>
    ensures { seen_as seen_name result ≡ further_at words.now }
{
    let Some((_, rest)) = past_symbol(words, Symbol::Point) else {
        return None;
    };
    name(rest)
}

/// The names behind points.
#[tactic(auto, unfolding(crate::specs::Seen::seen_list))]
pub(crate) fn further_names(
    alloc: Global,
    words: &[Token],
) -> Result<(Vec<Identifier>, &[Token]), AllocError>
    ensures { IfOk result (λ found. seen_list seen_name found ≡ all further_at words.now) }
{
    let mut names = Vec::new(alloc);
    let mut rest = words;
    'names: while let Some((name, after)) = point_name(rest) {
        names.push(name)?;
        rest = after;
    }
    Ok((names, rest))
}
