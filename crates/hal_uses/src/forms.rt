//! Phrases whose form alone is looked at.

ghost use Rattle.std.specs.Prelude.{◌≡◌};
ghost use Rattle.hal_tree.specs.SeenExpressions.{seen_expression};
ghost use Rattle.hal_tree.specs.SeenLeaves.{seen_literal};
ghost use Rattle.hal_tree.specs.SeenStatements.{seen_selector};
ghost use Rattle.hal_tree.specs.SeenUnits.{seen_head};
ghost use Rattle.hal_phrases.specs.SeenPhrases.{seen_node, seen_phrase};
ghost use Rattle.hal_names.specs.SeenNames.{seen_names};
ghost use Rattle.hal_uses.specs.Forms as forms;

use hal_base::{ERROR_LIMIT, Place};
use hal_names::Names;
use hal_phrases::{Node, Phrase, Role};
use hal_scope::unless;
use hal_tree::{Expr, Head, LiteralValue, Selector};

/// Whether a literal is an integer.
#[tactic(auto, unfolding(crate::specs::Forms::is_integer_value))]
fn is_integer_value(literal: LiteralValue) -> bool
    ensures { result ≡ forms.is_integer_value (seen_literal literal) }
{
    match literal {
        LiteralValue::Integer(_) => true,
        LiteralValue::Text(_) => false,
        LiteralValue::Bits { len: _, word: _ } => false,
        LiteralValue::True => false,
        LiteralValue::False => false,
        LiteralValue::On => false,
        LiteralValue::Off => false,
    }
}

/// Whether an expression is an integer literal.
#[tactic(auto, using(hal_tree::proofs::MadeExpressions::made_or, hal_tree::proofs::MadeExpressions::made_and, hal_tree::proofs::MadeExpressions::made_compare, hal_tree::proofs::MadeExpressions::made_cat, hal_tree::proofs::MadeExpressions::made_sum, hal_tree::proofs::MadeExpressions::made_product, hal_tree::proofs::MadeExpressions::made_power, hal_tree::proofs::MadeExpressions::made_not, hal_tree::proofs::MadeExpressions::made_literal, hal_tree::proofs::MadeExpressions::made_decimal, hal_tree::proofs::MadeExpressions::made_referred, hal_tree::proofs::MadeExpressions::made_call, hal_tree::proofs::MadeExpressions::made_convert, hal_tree::proofs::MadeExpressions::made_parenthesis), unfolding(crate::specs::Forms::is_integer_literal))]
fn is_integer_literal(tree: &Expr) -> bool
    ensures { result ≡ forms.is_integer_literal (seen_expression tree.now) }
{
    match tree {
        Expr::Literal { place: _, literal } => is_integer_value(literal.value()),
        Expr::Or { .. } => false,
        Expr::And { .. } => false,
        Expr::Compare { .. } => false,
        Expr::Cat { .. } => false,
        Expr::Sum { .. } => false,
        Expr::Product { .. } => false,
        Expr::Power { .. } => false,
        Expr::Not { .. } => false,
        Expr::Decimal { .. } => false,
        Expr::Reference(_) => false,
        Expr::Call { .. } => false,
        Expr::Convert { .. } => false,
        Expr::Parenthesis { .. } => false,
    }
}

/// Where a phrase breaks rule 328 (language document, Kinds).
#[tactic(auto, unfolding(crate::specs::Forms::no_exponent, crate::specs::Forms::is_exponent))]
pub fn no_exponent(node: Node<'_>) -> Option<Place>
    ensures { result ≡ forms.no_exponent (seen_node node.entry) }
{
    match node {
        Node::Expression { role, tree } => match role {
            Role::Exponent => unless(is_integer_literal(tree), tree.place()),
            _ => None,
        },
        _ => None,
    }
}

/// Whether a head is a FUNCTION's.
#[tactic(auto, using(hal_tree::proofs::MadeUnits::made_program, hal_tree::proofs::MadeUnits::made_compool, hal_tree::proofs::MadeUnits::made_task, hal_tree::proofs::MadeUnits::made_procedure, hal_tree::proofs::MadeUnits::made_function), unfolding(crate::specs::Forms::is_function_head))]
fn is_function_head(head: &Head) -> bool
    ensures { result ≡ forms.is_function_head (seen_head head.now) }
{
    match head {
        Head::Function { .. } => true,
        Head::Program { place: _ } => false,
        Head::Task { place: _ } => false,
        Head::Compool { place: _ } => false,
        Head::Procedure { .. } => false,
    }
}

/// Whether a phrase is a block that gives a value.
#[tactic(auto, unfolding(crate::specs::Forms::is_function))]
fn is_function(node: Node<'_>) -> bool
    ensures { result ≡ forms.is_function (seen_node node.entry) }
{
    match node {
        Node::Template { head, .. } => is_function_head(head),
        Node::Unit { head, .. } => is_function_head(head),
        _ => false,
    }
}

/// Whether the phrase with this number is a block that gives a value.
fn is_function_at(names: &Names<'_>, number: usize) -> bool
    ensures { result ≡ forms.is_function_at (seen_names names.now) number }
{
    match names.phrase(number) {
        None => false,
        Some(phrase) => is_function(phrase.node),
    }
}

/// Where a phrase breaks rule 711 (language document, Kinds).
#[tactic(auto, using(hal_kinds::proofs::Options::some_mapped), unfolding(crate::specs::Forms::misreturned))]
pub fn misreturned(names: &Names<'_>, phrase: &Phrase<'_>) -> Option<Place>
    ensures { result ≡ forms.misreturned (seen_names names.now) (seen_phrase phrase.now) (seen_phrase phrase.now).node }
{
    match phrase.node {
        Node::Return { place, value } => {
            let gives = is_function_at(names, phrase.around.home);
            if value.is_some() {
                unless(gives, place)
            } else if gives {
                Some(place)
            } else {
                None
            }
        }
        _ => None,
    }
}

/// Whether this may be the group or the number of an error.
fn is_error_number(number: u32) -> bool
    ensures { result ≡ forms.is_error_number number }
{
    1 <= number && number <= ERROR_LIMIT
}

/// The group or the number of an error that is none.
fn error_fault(group_at: Place, group: u32, number_at: Place, number: u32) -> Option<Place>
    ensures { result ≡ forms.error_fault group_at group number_at number }
{
    if is_error_number(group) {
        unless(is_error_number(number), number_at)
    } else {
        Some(group_at)
    }
}

/// The same of the errors that are meant.
#[tactic(auto, unfolding(crate::specs::Forms::selector_fault))]
fn selector_fault(selector: Selector) -> Option<Place>
    ensures { result ≡ forms.selector_fault (seen_selector selector) }
{
    match selector {
        Selector::Every => None,
        Selector::Group {
            place: _,
            group_at,
            group,
        } => unless(is_error_number(group), group_at),
        Selector::One {
            place: _,
            group_at,
            group,
            number_at,
            number,
        } => error_fault(group_at, group, number_at, number),
    }
}

/// Where a phrase breaks rule 719 (language document, Errors).
#[tactic(auto, unfolding(crate::specs::Forms::no_error))]
pub fn no_error(node: Node<'_>) -> Option<Place>
    ensures { result ≡ forms.no_error (seen_node node.entry) }
{
    match node {
        Node::Handler { place: _, selector } => selector_fault(*selector),
        Node::Response { place: _, selector } => selector_fault(*selector),
        Node::OffError { place: _, selector } => selector_fault(*selector),
        Node::SendError {
            group_at,
            group,
            number_at,
            number,
        } => error_fault(*group_at, group, *number_at, number),
        _ => None,
    }
}
