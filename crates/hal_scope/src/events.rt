//! Event expressions behind UNTIL of SCHEDULE.

ghost use Rattle.std.specs.Prelude.{◌≡◌, map};
ghost use Rattle.std.specs.Option.{option_map};
ghost use Rattle.hal_tree.specs.Rows.{expressions};
ghost use Rattle.hal_tree.specs.SeenExpressions.{seen_expression, seen_reference};
ghost use Rattle.hal_phrases.specs.SeenPhrases.{seen_node, seen_phrase};
ghost use Rattle.hal_names.specs.SeenNames.{seen_names};
ghost use Rattle.hal_scope.specs.Uses as uses;

use crate::sort::Sort;
use crate::sorts::sort_of;
use hal_names::Names;
use hal_phrases::{Node, Phrase, Role};
use hal_tree::{Expr, Reference};
use hal_words::Name;

/// What the phrase with this number declares.
pub fn sort_at(names: &Names<'_>, number: usize) -> Option<Sort>
    ensures { result ≡ uses.sort_at (seen_names names.now) number }
{
    let phrase = names.phrase(number)?;
    sort_of(phrase.node)
}

/// Whether this is an event or a process.
#[tactic(auto, unfolding(crate::specs::Uses::is_eventful))]
fn is_eventful(sort: Option<Sort>) -> bool
    ensures { result ≡ uses.is_eventful sort }
{
    match sort {
        Some(Sort::Event) | Some(Sort::Process) => true,
        _ => false,
    }
}

/// Whether a name means an event or a process in this block.
fn means_event(names: &Names<'_>, block: usize, name: &Name) -> bool
    ensures { result ≡ uses.means_event (seen_names names.now) block name.now }
{
    match names.means(block, name) {
        None => is_eventful(None),
        Some(number) => is_eventful(sort_at(names, number)),
    }
}

/// Whether a reference is a name alone that means an event or a process.
#[tactic(auto, using(hal_tree::proofs::MadeExpressions::made_reference, crate::proofs::Lists::nil_seen), unfolding(crate::specs::Uses::refers_to_event))]
pub fn refers_to_event(names: &Names<'_>, block: usize, reference: &Reference) -> bool
    ensures { result ≡ uses.refers_to_event (seen_names names.now) block (seen_reference reference.now) }
{
    reference.further.is_empty() && means_event(names, block, &reference.name)
}

/// Whether an operand under AND, OR, NOT or parentheses is an event or a process.
#[cycle(events)]
#[tactic(auto, using(hal_tree::proofs::MadeExpressions::made_or, hal_tree::proofs::MadeExpressions::made_and, hal_tree::proofs::MadeExpressions::made_compare, hal_tree::proofs::MadeExpressions::made_cat, hal_tree::proofs::MadeExpressions::made_sum, hal_tree::proofs::MadeExpressions::made_product, hal_tree::proofs::MadeExpressions::made_power, hal_tree::proofs::MadeExpressions::made_not, hal_tree::proofs::MadeExpressions::made_literal, hal_tree::proofs::MadeExpressions::made_decimal, hal_tree::proofs::MadeExpressions::made_referred, hal_tree::proofs::MadeExpressions::made_call, hal_tree::proofs::MadeExpressions::made_convert, hal_tree::proofs::MadeExpressions::made_parenthesis), unfolding(crate::specs::Uses::holds_event))]
pub fn holds_event(tree: &Expr, names: &Names<'_>, block: usize) -> bool
    ensures { result ≡ uses.holds_event (seen_names names.now) block (seen_expression tree.now) }
{
    match tree {
        Expr::Or { first, others, .. } => {
            holds_event(first, names, block) || hold_event(others, names, block)
        }
        Expr::And { first, others, .. } => {
            holds_event(first, names, block) || hold_event(others, names, block)
        }
        Expr::Not { operand, .. } => holds_event(operand, names, block),
        Expr::Parenthesis { inner, .. } => holds_event(inner, names, block),
        Expr::Reference(reference) => refers_to_event(names, block, reference),
        Expr::Compare { .. } => false,
        Expr::Cat { .. } => false,
        Expr::Sum { .. } => false,
        Expr::Product { .. } => false,
        Expr::Power { .. } => false,
        Expr::Literal { .. } => false,
        Expr::Decimal { .. } => false,
        Expr::Call { .. } => false,
        Expr::Convert { .. } => false,
    }
}

/// The same of expressions.
#[cycle(events)]
#[tactic(auto, unfolding(crate::specs::Uses::hold_event, hal_tree::specs::Rows::expressions))]
fn hold_event(trees: &[Expr], names: &Names<'_>, block: usize) -> bool
    ensures { result ≡ uses.hold_event (seen_names names.now) block (expressions (map seen_expression trees.now)) }
{
    for tree in trees {
        if holds_event(tree, names, block) {
            return true;
        }
    }
    false
}

/// The expression behind UNTIL of SCHEDULE, where a phrase is one or a part of one.
#[tactic(auto, unfolding(crate::specs::Uses::limit_of))]
pub fn limit_of<'a>(node: Node<'a>) -> Option<&'a Expr>
    ensures { option_map (λ tree. seen_expression tree.now) result ≡ uses.limit_of (seen_node node.entry) }
{
    match node {
        Node::Expression {
            role: Role::EventOrTime,
            tree,
        } => Some(tree),
        _ => None,
    }
}

/// The outermost such expression around the phrase with this number, after at most so many steps.
#[tactic(auto, unfolding(crate::specs::Uses::limit_around))]
pub fn limit_around<'a>(names: &Names<'a>, steps: usize, number: usize) -> Option<&'a Expr>
    ensures { option_map (λ tree. seen_expression tree.now) result ≡ uses.limit_around (seen_names names.now) steps number }
{
    let Some(fewer) = steps.checked_sub(1) else {
        return None;
    };
    let phrase = names.phrase(number)?;
    let tree = limit_of(phrase.node)?;
    match limit_around(names, fewer, phrase.around.parent) {
        None => Some(tree),
        Some(outer) => Some(outer),
    }
}

/// Whether a phrase stands in an event expression behind UNTIL of SCHEDULE.
pub fn is_in_event(names: &Names<'_>, phrase: &Phrase<'_>) -> bool
    ensures { result ≡ uses.is_in_event (seen_names names.now) (seen_phrase phrase.now) }
{
    match limit_around(names, names.phrases().len(), phrase.around.parent) {
        None => false,
        Some(tree) => holds_event(tree, names, phrase.around.block),
    }
}
