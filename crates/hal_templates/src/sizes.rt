//! Whether arrays have the same dimensions, and structures the same copies.

ghost use Rattle.std.specs.Prelude.{◌≡◌, map};
ghost use Rattle.std.specs.Option.{option_map};
ghost use Rattle.hal_tree.specs.Rows.{expressions};
ghost use Rattle.hal_tree.specs.SeenDeclarations.{seen_attribute, seen_type};
ghost use Rattle.hal_tree.specs.SeenExpressions.{seen_expression};
ghost use Rattle.hal_phrases.specs.SeenPhrases.{seen_phrase};
ghost use Rattle.hal_names.specs.SeenNames.{seen_names};
ghost use Rattle.hal_constants.specs.SeenKnown.{seen_known};
ghost use Rattle.hal_templates.specs.Sizes as sizes;

use crate::alike::may_be_number;
use crate::reading::{sizes_given, type_given};
use hal_base::SIZE_LIMIT;
use hal_constants::{Known, constant_of, size_of};
use hal_names::Names;
use hal_phrases::Phrase;
use hal_tree::{Attribute, Expr, Type};

/// The size that an expression in a phrase gives.
pub(crate) fn size_in(
    names: &Names<'_>,
    known: &Known,
    phrase: &Phrase<'_>,
    tree: &Expr,
) -> Option<u16>
    ensures { result ≡ sizes.size_in (seen_names names.now) (seen_known known.now) (seen_phrase phrase.now) (seen_expression tree.now) }
{
    size_of(SIZE_LIMIT, &constant_of(tree, names, known, phrase))
}

/// The sizes of two expressions, as far as they are known.
fn same_size(
    names: &Names<'_>,
    known: &Known,
    one: &Phrase<'_>,
    tree: &Expr,
    two: &Phrase<'_>,
    other: &Expr,
) -> bool
    ensures { result ≡ sizes.same_size (seen_names names.now) (seen_known known.now) (seen_phrase one.now) (seen_expression tree.now) (seen_phrase two.now) (seen_expression other.now) }
{
    may_be_number(
        size_in(names, known, one, tree),
        size_in(names, known, two, other),
    )
}

/// Dimension by dimension.
#[tactic(auto, unfolding(crate::specs::Sizes::same_sizes, hal_tree::specs::Rows::expressions))]
fn same_sizes(
    names: &Names<'_>,
    known: &Known,
    one: &Phrase<'_>,
    list: &[Expr],
    two: &Phrase<'_>,
    others: &[Expr],
) -> bool
    ensures { result ≡ sizes.same_sizes (seen_names names.now) (seen_known known.now) (seen_phrase one.now) (expressions (map seen_expression list.now)) (seen_phrase two.now) (expressions (map seen_expression others.now)) }
{
    let mut left = list;
    let mut right = others;
    while let Some((tree, later)) = left.split_first() {
        let Some((other, behind)) = right.split_first() else {
            return false;
        };
        if !same_size(names, known, one, tree, two, other) {
            return false;
        }
        left = later;
        right = behind;
    }
    right.is_empty()
}

/// Two arrays, or none.
#[tactic(auto, unfolding(crate::specs::Sizes::same_dimensions))]
fn same_dimensions(
    names: &Names<'_>,
    known: &Known,
    one: &Phrase<'_>,
    list: Option<&[Expr]>,
    two: &Phrase<'_>,
    others: Option<&[Expr]>,
) -> bool
    ensures { result ≡ sizes.same_dimensions (seen_names names.now) (seen_known known.now) (seen_phrase one.now) (option_map (λ list. expressions (map seen_expression list.now)) list.entry) (seen_phrase two.now) (option_map (λ list. expressions (map seen_expression list.now)) others.entry) }
{
    match (list, others) {
        (Some(list), Some(others)) => same_sizes(names, known, one, list, two, others),
        (None, None) => true,
        _ => false,
    }
}

/// The copies that a type gives.
#[tactic(auto, using(hal_tree::proofs::MadeDeclarations::made_integer_type, hal_tree::proofs::MadeDeclarations::made_boolean_type, hal_tree::proofs::MadeDeclarations::made_event_type, hal_tree::proofs::MadeDeclarations::made_bit_type, hal_tree::proofs::MadeDeclarations::made_character_type, hal_tree::proofs::MadeDeclarations::made_structure_type), unfolding(crate::specs::Sizes::copies_in))]
fn copies_in<'a>(kind: Option<&'a Type>) -> Option<&'a Expr>
    ensures { option_map (λ tree. seen_expression tree.now) result ≡ sizes.copies_in (option_map (λ kind. seen_type kind.now) kind.entry) }
{
    match kind? {
        Type::Structure { copies, .. } => copies.as_ref(),
        Type::Integer { place: _ } => None,
        Type::Boolean { place: _ } => None,
        Type::Event { place: _ } => None,
        Type::Bit { .. } => None,
        Type::Character { .. } => None,
    }
}

/// Two numbers of copies, or none.
#[tactic(auto, unfolding(crate::specs::Sizes::same_copies))]
fn same_copies(
    names: &Names<'_>,
    known: &Known,
    one: &Phrase<'_>,
    tree: Option<&Expr>,
    two: &Phrase<'_>,
    other: Option<&Expr>,
) -> bool
    ensures { result ≡ sizes.same_copies (seen_names names.now) (seen_known known.now) (seen_phrase one.now) (option_map (λ tree. seen_expression tree.now) tree.entry) (seen_phrase two.now) (option_map (λ tree. seen_expression tree.now) other.entry) }
{
    match (tree, other) {
        (Some(tree), Some(other)) => same_size(names, known, one, tree, two, other),
        (None, None) => true,
        _ => false,
    }
}

/// Dimensions and copies of what two phrases declare (language document, Templates).
pub(crate) fn same_shape(
    names: &Names<'_>,
    known: &Known,
    one: &Phrase<'_>,
    common: &[Attribute],
    own: &[Attribute],
    two: &Phrase<'_>,
    other_common: &[Attribute],
    other_own: &[Attribute],
) -> bool
    ensures { result ≡ sizes.same_shape (seen_names names.now) (seen_known known.now) (seen_phrase one.now) (map seen_attribute common.now) (map seen_attribute own.now) (seen_phrase two.now) (map seen_attribute other_common.now) (map seen_attribute other_own.now) }
{
    let list = sizes_given(common, own);
    let copies = copies_in(type_given(common, own));
    same_dimensions(
        names,
        known,
        one,
        list,
        two,
        sizes_given(other_common, other_own),
    ) && same_copies(
        names,
        known,
        one,
        copies,
        two,
        copies_in(type_given(other_common, other_own)),
    )
}
