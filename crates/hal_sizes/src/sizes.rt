//! The dimensions of arrays and the copies of structures.

ghost use Rattle.std.specs.Prelude.{◌≡◌, map};
ghost use Rattle.std.specs.Option.{option_map};
ghost use Rattle.hal_tree.specs.Rows.{expressions};
ghost use Rattle.hal_tree.specs.SeenDeclarations.{seen_type};
ghost use Rattle.hal_tree.specs.SeenExpressions.{seen_expression};
ghost use Rattle.hal_phrases.specs.SeenPhrases.{seen_phrase};
ghost use Rattle.hal_names.specs.SeenNames.{seen_names};
ghost use Rattle.hal_constants.specs.SeenKnown.{seen_known};
ghost use Rattle.hal_sizes.specs.Sizes as sizes;

use crate::counts::times;
use crate::extent::Extent;
use hal_base::SIZE_LIMIT;
use hal_constants::{Known, constant_of, size_of};
use hal_names::Names;
use hal_phrases::Phrase;
use hal_tree::{Expr, Type};

/// The size of a dimension, or the number of copies, that an expression gives.
pub(crate) fn size_in(
    names: &Names<'_>,
    known: &Known,
    phrase: &Phrase<'_>,
    tree: &Expr,
) -> Option<u16>
    ensures { result ≡ sizes.size_in (seen_names names.now) (seen_known known.now) (seen_phrase phrase.now) (seen_expression tree.now) }
{
    size_of(SIZE_LIMIT, &constant_of(tree, names, known, phrase))
}

/// The size of the first dimension, 0 where there is none.
#[tactic(auto, unfolding(crate::specs::Sizes::first_size, hal_tree::specs::Rows::expressions))]
fn first_size(names: &Names<'_>, known: &Known, phrase: &Phrase<'_>, list: &[Expr]) -> Option<u16>
    ensures { result ≡ sizes.first_size (seen_names names.now) (seen_known known.now) (seen_phrase phrase.now) (expressions (map seen_expression list.now)) }
{
    match list.split_first() {
        None => Some(0),
        Some((tree, _)) => size_in(names, known, phrase, tree),
    }
}

/// The sizes of the dimensions behind the first one.
#[tactic(auto, unfolding(crate::specs::Sizes::behind, hal_tree::specs::Rows::expressions))]
fn behind<'a>(list: &'a [Expr]) -> &'a [Expr]
    ensures { expressions (map seen_expression result.now) ≡ sizes.behind (expressions (map seen_expression list.now)) }
{
    match list.split_first() {
        None => list,
        Some((_, others)) => others,
    }
}

/// Up to three sizes.
#[tactic(auto, using(hal_kinds::proofs::Lists::counted), unfolding(crate::specs::Sizes::known_extent))]
fn extent_by(names: &Names<'_>, known: &Known, phrase: &Phrase<'_>, list: &[Expr]) -> Option<Extent>
    ensures { result ≡ sizes.extent_by (seen_names names.now) (seen_known known.now) (seen_phrase phrase.now) (expressions (map seen_expression list.now)) }
{
    if 3 < list.len() {
        return None;
    }
    let first = first_size(names, known, phrase, list)?;
    let second = first_size(names, known, phrase, behind(list))?;
    let third = first_size(names, known, phrase, behind(behind(list)))?;
    Some(Extent {
        first,
        second,
        third,
    })
}

/// The dimensions of what is declared with these sizes, or with none, where they are known (language document, Sizes).
#[tactic(auto, unfolding(crate::specs::Sizes::extent_of))]
pub fn extent_of(
    names: &Names<'_>,
    known: &Known,
    phrase: &Phrase<'_>,
    list: Option<&[Expr]>,
) -> Option<Extent>
    ensures { result ≡ sizes.extent_of (seen_names names.now) (seen_known known.now) (seen_phrase phrase.now) (option_map (λ list. expressions (map seen_expression list.now)) list.entry) }
{
    match list {
        None => Some(Extent {
            first: 0,
            second: 0,
            third: 0,
        }),
        Some(list) => extent_by(names, known, phrase, list),
    }
}

/// How many places an array has; without dimensions there is one.
pub fn places_in(extent: Extent) -> u128
    ensures { result ≡ sizes.places_in extent }
{
    let first = u128::from(extent.first.max(1));
    let second = u128::from(extent.second.max(1));
    let third = u128::from(extent.third.max(1));
    times(first, times(second, third))
}

/// How many copies there are, 0 where there are none.
#[tactic(auto, using(hal_tree::proofs::MadeDeclarations::made_integer_type, hal_tree::proofs::MadeDeclarations::made_boolean_type, hal_tree::proofs::MadeDeclarations::made_event_type, hal_tree::proofs::MadeDeclarations::made_bit_type, hal_tree::proofs::MadeDeclarations::made_character_type, hal_tree::proofs::MadeDeclarations::made_structure_type), unfolding(crate::specs::Sizes::copies_in, crate::specs::Sizes::copies_by))]
fn copies_in(names: &Names<'_>, known: &Known, phrase: &Phrase<'_>, kind: &Type) -> Option<u16>
    ensures { result ≡ sizes.copies_in (seen_names names.now) (seen_known known.now) (seen_phrase phrase.now) (seen_type kind.now) }
{
    match kind {
        Type::Structure {
            place: _,
            template: _,
            copies,
        } => match copies {
            None => Some(0),
            Some(tree) => size_in(names, known, phrase, tree),
        },
        Type::Integer { place: _ } => Some(0),
        Type::Boolean { place: _ } => Some(0),
        Type::Event { place: _ } => Some(0),
        Type::Bit { .. } => Some(0),
        Type::Character { .. } => Some(0),
    }
}

/// How many copies data of this type have, 0 where they have none, and where that is known (language document, Sizes).
#[tactic(auto, unfolding(crate::specs::Sizes::copies_of))]
pub fn copies_of(
    names: &Names<'_>,
    known: &Known,
    phrase: &Phrase<'_>,
    kind: Option<&Type>,
) -> Option<u16>
    ensures { result ≡ sizes.copies_of (seen_names names.now) (seen_known known.now) (seen_phrase phrase.now) (option_map (λ kind. seen_type kind.now) kind.entry) }
{
    match kind {
        None => Some(0),
        Some(kind) => copies_in(names, known, phrase, kind),
    }
}
