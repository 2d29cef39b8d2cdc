//! Operands that don't go together.

ghost use Rattle.std.specs.Prelude.{◌≡◌, map};
ghost use Rattle.hal_tree.specs.Rows.{expressions};
ghost use Rattle.hal_tree.specs.SeenExpressions.{seen_expression};
ghost use Rattle.hal_tree.specs.SeenLeaves.{seen_relation};
ghost use Rattle.hal_phrases.specs.SeenPhrases.{seen_phrase};
ghost use Rattle.hal_names.specs.SeenNames.{seen_names};
ghost use Rattle.hal_operands.specs.Pairs as pairs;

use hal_base::Place;
use hal_base::rules::{BITS_BESIDE_COMPARISON, BITS_COMPARED_BY_ORDER, WRONG_KIND_OF_OPERAND};
use hal_kinds::{Class, beside, class_of, joined};
use hal_names::Names;
use hal_phrases::{Node, Phrase, Role};
use hal_tree::{Expr, Relation};

/// Whether a relation tells only whether two values are the same.
#[tactic(auto, unfolding(crate::specs::Pairs::is_equality))]
fn is_equality(relation: Relation) -> bool
    ensures { result ≡ pairs.is_equality (seen_relation relation) }
{
    match relation {
        Relation::Equal => true,
        Relation::NotEqual => true,
        Relation::Less => false,
        Relation::Greater => false,
        Relation::AtMost => false,
        Relation::AtLeast => false,
        Relation::NotLess => false,
        Relation::NotGreater => false,
    }
}

/// The rule that two values break which are compared, at the comparison's place or that of the right one.
#[tactic(auto, unfolding(crate::specs::Pairs::compared_fault))]
fn compared_fault(
    place: Place,
    relation: Relation,
    at: Place,
    left: Option<Class>,
    right: Option<Class>,
) -> Option<(u16, Place)>
    ensures { result ≡ pairs.compared_fault place (seen_relation relation) at left right }
{
    match (left?, right?) {
        (Class::Bits, Class::Bits) => {
            if is_equality(relation) {
                None
            } else {
                Some((BITS_COMPARED_BY_ORDER, place))
            }
        }
        (Class::Integer, Class::Bits | Class::Text) => Some((WRONG_KIND_OF_OPERAND, at)),
        (Class::Bits, Class::Integer | Class::Text) => Some((WRONG_KIND_OF_OPERAND, at)),
        (Class::Text, Class::Integer | Class::Bits) => Some((WRONG_KIND_OF_OPERAND, at)),
        _ => None,
    }
}

/// Whether this is one value.
#[tactic(auto, unfolding(crate::specs::Pairs::is_value))]
fn is_value(class: Option<Class>) -> bool
    ensures { result ≡ pairs.is_value class }
{
    match class {
        Some(Class::Integer | Class::Bits | Class::Text) => true,
        _ => false,
    }
}

/// The first operand of CAT that can't be joined to what stands before it.
#[tactic(auto, unfolding(crate::specs::Pairs::joined_fault, hal_tree::specs::Rows::expressions))]
fn joined_fault(
    names: &Names<'_>,
    block: usize,
    first: Option<Class>,
    trees: &[Expr],
) -> Option<(u16, Place)>
    ensures { result ≡ pairs.joined_fault (seen_names names.now) block first (expressions (map seen_expression trees.now)) }
{
    let mut before = first;
    for tree in trees {
        let class = class_of(tree, names, block);
        if !(is_value(before) && is_value(class)) {
            return None;
        }
        before = joined(before, class);
        if before.is_none() {
            return Some((WRONG_KIND_OF_OPERAND, tree.place()));
        }
    }
    None
}

/// Whether an expression is a comparison, and not one in parentheses.
#[tactic(auto, using(hal_tree::proofs::MadeExpressions::made_or, hal_tree::proofs::MadeExpressions::made_and, hal_tree::proofs::MadeExpressions::made_compare, hal_tree::proofs::MadeExpressions::made_cat, hal_tree::proofs::MadeExpressions::made_sum, hal_tree::proofs::MadeExpressions::made_product, hal_tree::proofs::MadeExpressions::made_power, hal_tree::proofs::MadeExpressions::made_not, hal_tree::proofs::MadeExpressions::made_literal, hal_tree::proofs::MadeExpressions::made_decimal, hal_tree::proofs::MadeExpressions::made_referred, hal_tree::proofs::MadeExpressions::made_call, hal_tree::proofs::MadeExpressions::made_convert, hal_tree::proofs::MadeExpressions::made_parenthesis), unfolding(crate::specs::Pairs::is_comparison))]
fn is_comparison(tree: &Expr) -> bool
    ensures { result ≡ pairs.is_comparison (seen_expression tree.now) }
{
    match tree {
        Expr::Compare { .. } => true,
        Expr::Or { .. } => false,
        Expr::And { .. } => false,
        Expr::Cat { .. } => false,
        Expr::Sum { .. } => false,
        Expr::Product { .. } => false,
        Expr::Power { .. } => false,
        Expr::Not { .. } => false,
        Expr::Literal { .. } => false,
        Expr::Decimal { .. } => false,
        Expr::Reference(_) => false,
        Expr::Call { .. } => false,
        Expr::Convert { .. } => false,
        Expr::Parenthesis { .. } => false,
    }
}

/// Whether this is bits.
#[tactic(auto, unfolding(crate::specs::Pairs::is_bits))]
fn is_bits(class: Option<Class>) -> bool
    ensures { result ≡ pairs.is_bits class }
{
    match class {
        Some(Class::Bits) => true,
        _ => false,
    }
}

/// Bits, at this place, behind which an operand is a comparison.
#[tactic(auto, unfolding(crate::specs::Pairs::mixed_behind, hal_tree::specs::Rows::expressions))]
fn mixed_behind(
    names: &Names<'_>,
    block: usize,
    place: Place,
    first: Option<Class>,
    trees: &[Expr],
) -> Option<(u16, Place)>
    ensures { result ≡ pairs.mixed_behind (seen_names names.now) block place first (expressions (map seen_expression trees.now)) }
{
    let mut before = first;
    for tree in trees {
        if is_bits(before) && is_comparison(tree) {
            return Some((BITS_BESIDE_COMPARISON, place));
        }
        before = beside(before, class_of(tree, names, block));
    }
    None
}

/// Bits directly behind a comparison.
#[tactic(auto, unfolding(crate::specs::Pairs::mixed_before, hal_tree::specs::Rows::expressions))]
fn mixed_before(
    names: &Names<'_>,
    block: usize,
    first: &Expr,
    trees: &[Expr],
) -> Option<(u16, Place)>
    ensures { result ≡ pairs.mixed_before (seen_names names.now) block (seen_expression first.now) (expressions (map seen_expression trees.now)) }
{
    let (second, _) = trees.split_first()?;
    if is_comparison(first) && is_bits(class_of(second, names, block)) {
        Some((BITS_BESIDE_COMPARISON, second.place()))
    } else {
        None
    }
}

/// The operands of one AND or OR.
fn mixed_fault(
    names: &Names<'_>,
    block: usize,
    first: &Expr,
    trees: &[Expr],
) -> Option<(u16, Place)>
    ensures { result ≡ pairs.mixed_fault (seen_names names.now) block (seen_expression first.now) (expressions (map seen_expression trees.now)) }
{
    let mixed = mixed_before(names, block, first, trees);
    if mixed.is_some() {
        return mixed;
    }
    mixed_behind(
        names,
        block,
        first.place(),
        class_of(first, names, block),
        trees,
    )
}

/// The operands of an expression.
#[tactic(auto, using(hal_tree::proofs::MadeExpressions::made_or, hal_tree::proofs::MadeExpressions::made_and, hal_tree::proofs::MadeExpressions::made_compare, hal_tree::proofs::MadeExpressions::made_cat, hal_tree::proofs::MadeExpressions::made_sum, hal_tree::proofs::MadeExpressions::made_product, hal_tree::proofs::MadeExpressions::made_power, hal_tree::proofs::MadeExpressions::made_not, hal_tree::proofs::MadeExpressions::made_literal, hal_tree::proofs::MadeExpressions::made_decimal, hal_tree::proofs::MadeExpressions::made_referred, hal_tree::proofs::MadeExpressions::made_call, hal_tree::proofs::MadeExpressions::made_convert, hal_tree::proofs::MadeExpressions::made_parenthesis), unfolding(crate::specs::Pairs::pair_fault))]
pub(crate) fn pair_fault(names: &Names<'_>, block: usize, tree: &Expr) -> Option<(u16, Place)>
    ensures { result ≡ pairs.pair_fault (seen_names names.now) block (seen_expression tree.now) }
{
    match tree {
        Expr::Or { first, others, .. } => mixed_fault(names, block, first, others),
        Expr::And { first, others, .. } => mixed_fault(names, block, first, others),
        Expr::Compare {
            place,
            left,
            relation,
            right,
        } => compared_fault(
            *place,
            *relation,
            right.place(),
            class_of(left, names, block),
            class_of(right, names, block),
        ),
        Expr::Cat { first, others, .. } => {
            joined_fault(names, block, class_of(first, names, block), others)
        }
        Expr::Sum { .. } => None,
        Expr::Product { .. } => None,
        Expr::Power { .. } => None,
        Expr::Not { .. } => None,
        Expr::Literal { .. } => None,
        Expr::Decimal { .. } => None,
        Expr::Reference(_) => None,
        Expr::Call { .. } => None,
        Expr::Convert { .. } => None,
        Expr::Parenthesis { .. } => None,
    }
}

/// Which rule of 702, 708 and 717 operands break that don't go together, and where (language document, Kinds).
#[tactic(auto, unfolding(crate::specs::Pairs::mismatched, crate::specs::Pairs::is_eventual))]
pub fn mismatched(names: &Names<'_>, phrase: &Phrase<'_>) -> Option<(u16, Place)>
    ensures { result ≡ pairs.mismatched (seen_names names.now) (seen_phrase phrase.now) (seen_phrase phrase.now).node }
{
    match phrase.node {
        Node::Expression { role, tree } => match role {
            Role::Event | Role::EventOrTime => None,
            _ => pair_fault(names, phrase.around.block, tree),
        },
        _ => None,
    }
}
