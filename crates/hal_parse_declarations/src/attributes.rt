//! Attributes of what is declared.

ghost use Rattle.std.specs.Prelude.{◌≡◌, IfOk};
ghost use Rattle.hal_grammar.specs.Declarations.{ConstantValues, Dimensions, InitialValues, Typed};
ghost use Rattle.hal_tree.specs.SeenDeclarations.{seen_attribute};
ghost use Rattle.hal_tree.specs.SeenExpressions.{seen_expression};
ghost use Rattle.hal_parse_expr.specs.Reading.{made_of};
ghost use Rattle.hal_parse_expr.specs.ReadingExpressions.{expressions, expressions_at};
ghost use Rattle.hal_parse_expr.specs.Seen.{seen_as, seen_as_list, seen_list};
ghost use Rattle.hal_parse_declarations.specs.DeclarationWords.{attribute_begun, type_begun};
ghost use Rattle.hal_parse_declarations.specs.ReadingDeclarations.{attribute_at, attributes_at, in_parentheses, initials_at, lock_inside};

use crate::attribute_words::{AttributeWord, TypeWord, attribute_word_of};
use crate::initials::enclosed_initials;
use crate::kinds::kind_behind;
use hal_base::Place;
use hal_parse_expr::{found, past_symbol, read_expression, read_expressions};
use hal_tree::{Attribute, Expr};
use hal_words::{Symbol, Token};
use std::alloc::{AllocError, Global};

/// An attribute.
#[tactic(auto, using(crate::proofs::CodeDeclarations::attribute_none, crate::proofs::CodeDeclarations::no_attribute, crate::proofs::CodeDeclarations::attribute_read), unfolding(hal_parse_expr::specs::Seen::seen_as))]
fn attribute(
    alloc: Global,
    words: &[Token],
    depth: u32,
) -> Result<Option<(Attribute, &[Token])>, AllocError>
    ensures { IfOk result (λ found. seen_as seen_attribute found ≡ attribute_at depth words.now) }
{
    let Some((first, rest)) = words.split_first() else {
        return Ok(None);
    };
    let Some(begun) = attribute_word_of(&first.word) else {
        return Ok(None);
    };
    attribute_behind(alloc, first.place, begun, rest, depth)
}

/// Behind the first word of an attribute.
#[tactic(auto, using(hal_tree::proofs::MadeDeclarations::made_marked), unfolding(crate::specs::DeclarationWords::attribute_begun, hal_parse_expr::specs::Seen::seen_as))]
fn attribute_behind(
    alloc: Global,
    place: Place,
    begun: AttributeWord,
    words: &[Token],
    depth: u32,
) -> Result<Option<(Attribute, &[Token])>, AllocError>
    ensures { IfOk result (λ found. seen_as seen_attribute found ≡ attribute_begun depth place begun words.now) }
{
    match begun {
        AttributeWord::Array => dimensions(alloc, place, words, depth),
        AttributeWord::Lock => lock(alloc, place, words, depth),
        AttributeWord::Initial => initial_values(alloc, place, words, depth),
        AttributeWord::Constant => constant_values(alloc, place, words, depth),
        AttributeWord::Marked(mark) => Ok(Some((Attribute::Marked { place, mark }, words))),
        AttributeWord::Typed(begun) => typed(alloc, place, begun, words, depth),
    }
}

/// A type, behind its first word.
#[tactic(auto, using(hal_tree::proofs::MadeDeclarations::made_typed), unfolding(hal_parse_expr::specs::Reading::made_of, hal_parse_expr::specs::Seen::seen_as))]
fn typed(
    alloc: Global,
    place: Place,
    begun: TypeWord,
    words: &[Token],
    depth: u32,
) -> Result<Option<(Attribute, &[Token])>, AllocError>
    ensures { IfOk result (λ found. seen_as seen_attribute found ≡ made_of (λ k. Typed k) (type_begun depth place begun words.now)) }
{
    let (kind, rest) = found!(kind_behind(alloc, place, begun, words, depth));
    Ok(Some((Attribute::Typed(kind), rest)))
}

/// Behind ARRAY: its sizes.
#[tactic(auto, using(hal_tree::proofs::MadeDeclarations::made_dimensions), unfolding(hal_parse_expr::specs::Reading::made_of, hal_parse_expr::specs::Seen::seen_as, hal_parse_expr::specs::Seen::seen_as_list))]
fn dimensions(
    alloc: Global,
    place: Place,
    words: &[Token],
    depth: u32,
) -> Result<Option<(Attribute, &[Token])>, AllocError>
    ensures { IfOk result (λ found. seen_as seen_attribute found ≡ made_of (λ ts. Dimensions place ts) (in_parentheses (expressions_at depth) words.now)) }
{
    let (sizes, rest) = found!(enclosed_expressions(alloc, words, depth));
    Ok(Some((Attribute::Dimensions { place, sizes }, rest)))
}

/// Expressions in parentheses.
#[tactic(auto, unfolding(crate::specs::ReadingDeclarations::in_parentheses, hal_parse_expr::specs::Reading::before_symbol, hal_parse_expr::specs::Reading::followed, hal_parse_expr::specs::Reading::made_of, hal_parse_expr::specs::Seen::seen_as_list, hal_parse_expr::specs::Seen::seen))]
fn enclosed_expressions(
    alloc: Global,
    words: &[Token],
    depth: u32,
) -> Result<Option<(Vec<Expr>, &[Token])>, AllocError>
    ensures { IfOk result (λ found. seen_as_list seen_expression expressions found ≡ in_parentheses (expressions_at depth) words.now) }
{
    let Some((_, inside)) = past_symbol(words, Symbol::LeftParenthesis) else {
        return Ok(None);
    };
    let (list, end) = found!(read_expressions(alloc, inside, depth));
    let Some((_, rest)) = past_symbol(end, Symbol::RightParenthesis) else {
        return Ok(None);
    };
    Ok(Some((list, rest)))
}

/// Behind LOCK: a lock group or `*` in parentheses.
#[tactic(auto, unfolding(crate::specs::ReadingDeclarations::in_parentheses, hal_parse_expr::specs::Reading::before_symbol, hal_parse_expr::specs::Reading::followed, hal_parse_expr::specs::Reading::made_of, hal_parse_expr::specs::Seen::seen_as, hal_parse_expr::specs::Seen::seen))]
fn lock(
    alloc: Global,
    place: Place,
    words: &[Token],
    depth: u32,
) -> Result<Option<(Attribute, &[Token])>, AllocError>
    ensures { IfOk result (λ found. seen_as seen_attribute found ≡ in_parentheses (lock_inside depth place) words.now) }
{
    let Some((_, inside)) = past_symbol(words, Symbol::LeftParenthesis) else {
        return Ok(None);
    };
    let (attribute, end) = found!(locked(alloc, place, inside, depth));
    let Some((_, rest)) = past_symbol(end, Symbol::RightParenthesis) else {
        return Ok(None);
    };
    Ok(Some((attribute, rest)))
}

/// Behind LOCK and its parenthesis: `*`, or an expression.
#[tactic(auto, using(hal_tree::proofs::MadeDeclarations::made_lock_any, hal_tree::proofs::MadeDeclarations::made_lock_group), unfolding(crate::specs::ReadingDeclarations::lock_inside, hal_parse_expr::specs::Reading::decided, hal_parse_expr::specs::Reading::made_of, hal_parse_expr::specs::Seen::seen_as, hal_parse_expr::specs::Seen::seen))]
fn locked(
    alloc: Global,
    place: Place,
    words: &[Token],
    depth: u32,
) -> Result<Option<(Attribute, &[Token])>, AllocError>
    ensures { IfOk result (λ found. seen_as seen_attribute found ≡ lock_inside depth place words.now) }
{
    if let Some((_, rest)) = past_symbol(words, Symbol::Star) {
        return Ok(Some((Attribute::LockAny { place }, rest)));
    }
    let (group, rest) = found!(read_expression(alloc, words, depth));
    Ok(Some((Attribute::LockGroup { place, group }, rest)))
}

/// Behind INITIAL: its values.
#[tactic(auto, using(hal_tree::proofs::MadeDeclarations::made_initial), unfolding(hal_parse_expr::specs::Reading::made_of, hal_parse_expr::specs::Seen::seen_as, hal_parse_expr::specs::Seen::seen_as_list))]
fn initial_values(
    alloc: Global,
    place: Place,
    words: &[Token],
    depth: u32,
) -> Result<Option<(Attribute, &[Token])>, AllocError>
    ensures { IfOk result (λ found. seen_as seen_attribute found ≡ made_of (λ ts. InitialValues place ts) (in_parentheses (initials_at depth) words.now)) }
{
    let (values, rest) = found!(enclosed_initials(alloc, words, depth));
    Ok(Some((Attribute::Initial { place, values }, rest)))
}

/// Behind CONSTANT: its values.
#[tactic(auto, using(hal_tree::proofs::MadeDeclarations::made_constant), unfolding(hal_parse_expr::specs::Reading::made_of, hal_parse_expr::specs::Seen::seen_as, hal_parse_expr::specs::Seen::seen_as_list))]
fn constant_values(
    alloc: Global,
    place: Place,
    words: &[Token],
    depth: u32,
) -> Result<Option<(Attribute, &[Token])>, AllocError>
    ensures { IfOk result (λ found. seen_as seen_attribute found ≡ made_of (λ ts. ConstantValues place ts) (in_parentheses (initials_at depth) words.now)) }
{
    let (values, rest) = found!(enclosed_initials(alloc, words, depth));
    Ok(Some((Attribute::Constant { place, values }, rest)))
}

/// As many attributes as there are.
#[tactic(auto, unfolding(crate::specs::ReadingDeclarations::attributes_at, hal_parse_expr::specs::Seen::seen_list))]
pub(crate) fn attributes(
    alloc: Global,
    words: &[Token],
    depth: u32,
) -> Result<(Vec<Attribute>, &[Token]), AllocError>
    ensures { IfOk result (λ found. seen_list seen_attribute found ≡ attributes_at depth words.now) }
{
    let mut attributes = Vec::new(alloc);
    let mut rest = words;
    'attributes: while let Some((next, after)) = attribute(alloc, rest, depth)? {
        attributes.push(next)?;
        rest = after;
    }
    Ok((attributes, rest))
}
