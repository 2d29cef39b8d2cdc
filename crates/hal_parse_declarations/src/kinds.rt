//! Types.

ghost use Rattle.std.specs.Prelude.{◌≡◌, IfOk};
ghost use Rattle.std.specs.Option.{option_map};
ghost use Rattle.hal_grammar.specs.Declarations.{BitKind, CharacterKind};
ghost use Rattle.hal_tree.specs.SeenDeclarations.{seen_type};
ghost use Rattle.hal_tree.specs.SeenExpressions.{seen_expression};
ghost use Rattle.hal_parse_expr.specs.Reading.{made_of};
ghost use Rattle.hal_parse_expr.specs.ReadingExpressions.{expression_at};
ghost use Rattle.hal_parse_expr.specs.Seen.{seen_as};
ghost use Rattle.hal_parse_declarations.specs.DeclarationWords.{type_begun};
ghost use Rattle.hal_parse_declarations.specs.ReadingDeclarations.{copy_count_at, in_parentheses, kind_at, structure_behind};

use crate::attribute_words::{TypeWord, type_word_of};
use crate::parentheses::enclosed_expression;
use hal_base::Place;
use hal_parse_expr::{found, past, past_symbol, read_expression};
use hal_tree::{Expr, Type};
use hal_words::{Name, Reserved, Symbol, Token};
use std::alloc::{AllocError, Global};

/// A type.
#[tactic(auto, using(crate::proofs::CodeDeclarations::kind_none, crate::proofs::CodeDeclarations::no_type, crate::proofs::CodeDeclarations::type_read), unfolding(hal_parse_expr::specs::Seen::seen_as))]
pub fn kind(
    alloc: Global,
    words: &[Token],
    depth: u32,
) -> Result<Option<(Type, &[Token])>, AllocError>
    ensures { IfOk result (λ found. seen_as seen_type found ≡ kind_at depth words.now) }
{
    let Some((first, rest)) = words.split_first() else {
        return Ok(None);
    };
    let Some(begun) = type_word_of(&first.word) else {
        return Ok(None);
    };
    kind_behind(alloc, first.place, begun, rest, depth)
}

/// Behind the first word of a type.
#[tactic(auto, using(hal_tree::proofs::MadeDeclarations::made_integer_type, hal_tree::proofs::MadeDeclarations::made_boolean_type, hal_tree::proofs::MadeDeclarations::made_event_type), unfolding(crate::specs::DeclarationWords::type_begun, hal_parse_expr::specs::Seen::seen_as))]
pub(crate) fn kind_behind(
    alloc: Global,
    place: Place,
    begun: TypeWord,
    words: &[Token],
    depth: u32,
) -> Result<Option<(Type, &[Token])>, AllocError>
    ensures { IfOk result (λ found. seen_as seen_type found ≡ type_begun depth place begun words.now) }
{
    match begun {
        TypeWord::Integer => Ok(Some((Type::Integer { place }, words))),
        TypeWord::Bit => bit(alloc, place, words, depth),
        TypeWord::Boolean => Ok(Some((Type::Boolean { place }, words))),
        TypeWord::Character => character(alloc, place, words, depth),
        TypeWord::Event => Ok(Some((Type::Event { place }, words))),
        TypeWord::Template(name) => structure(alloc, place, name, words, depth),
    }
}

/// Behind BIT: its size.
#[tactic(auto, using(hal_tree::proofs::MadeDeclarations::made_bit_type), unfolding(hal_parse_expr::specs::Reading::made_of, hal_parse_expr::specs::Seen::seen_as))]
fn bit(
    alloc: Global,
    place: Place,
    words: &[Token],
    depth: u32,
) -> Result<Option<(Type, &[Token])>, AllocError>
    ensures { IfOk result (λ found. seen_as seen_type found ≡ made_of (λ t. BitKind place t) (in_parentheses (expression_at depth) words.now)) }
{
    let (size, rest) = found!(enclosed_expression(alloc, words, depth));
    Ok(Some((Type::Bit { place, size }, rest)))
}

/// Behind CHARACTER: its size.
#[tactic(auto, using(hal_tree::proofs::MadeDeclarations::made_character_type), unfolding(hal_parse_expr::specs::Reading::made_of, hal_parse_expr::specs::Seen::seen_as))]
fn character(
    alloc: Global,
    place: Place,
    words: &[Token],
    depth: u32,
) -> Result<Option<(Type, &[Token])>, AllocError>
    ensures { IfOk result (λ found. seen_as seen_type found ≡ made_of (λ t. CharacterKind place t) (in_parentheses (expression_at depth) words.now)) }
{
    let (size, rest) = found!(enclosed_expression(alloc, words, depth));
    Ok(Some((Type::Character { place, size }, rest)))
}

/// Behind a template's name: `-STRUCTURE`, and copies or none.
#[tactic(auto, using(hal_tree::proofs::MadeDeclarations::made_structure_type), unfolding(crate::specs::ReadingDeclarations::structure_behind, hal_parse_expr::specs::Reading::followed, hal_parse_expr::specs::Reading::made_of, hal_parse_expr::specs::Seen::seen_as, hal_parse_expr::specs::Seen::seen))]
fn structure(
    alloc: Global,
    place: Place,
    template: Name,
    words: &[Token],
    depth: u32,
) -> Result<Option<(Type, &[Token])>, AllocError>
    ensures { IfOk result (λ found. seen_as seen_type found ≡ structure_behind depth place template words.now) }
{
    let Some((_, behind)) = past_symbol(words, Symbol::Minus) else {
        return Ok(None);
    };
    let Some((_, count)) = past(behind, Reserved::Structure) else {
        return Ok(None);
    };
    let (copies, rest) = found!(copy_count(alloc, count, depth));
    let whole = Type::Structure {
        place,
        template,
        copies,
    };
    Ok(Some((whole, rest)))
}

/// Copies in parentheses, or none.
#[tactic(auto, unfolding(crate::specs::ReadingDeclarations::copy_count_at, hal_parse_expr::specs::Reading::decided, hal_parse_expr::specs::Reading::before_symbol, hal_parse_expr::specs::Reading::followed, hal_parse_expr::specs::Reading::made_of, hal_parse_expr::specs::Seen::seen_as, hal_parse_expr::specs::Seen::seen))]
fn copy_count(
    alloc: Global,
    words: &[Token],
    depth: u32,
) -> Result<Option<(Option<Expr>, &[Token])>, AllocError>
    ensures { IfOk result (λ found. seen_as (option_map seen_expression) found ≡ copy_count_at depth words.now) }
{
    let Some((_, inside)) = past_symbol(words, Symbol::LeftParenthesis) else {
        return Ok(Some((None, words)));
    };
    let (count, end) = found!(read_expression(alloc, inside, depth));
    let Some((_, rest)) = past_symbol(end, Symbol::RightParenthesis) else {
        return Ok(None);
    };
    Ok(Some((Some(count), rest)))
}
