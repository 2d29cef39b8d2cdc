//! Times and event expressions.

ghost use Rattle.std.specs.Prelude.{◌≡◌, map};
ghost use Rattle.hal_tree.specs.SeenExpressions.{seen_expression, seen_reference, seen_subscript};
ghost use Rattle.hal_tree.specs.SeenLeaves.{seen_name};
ghost use Rattle.hal_phrases.specs.SeenPhrases.{seen_phrase};
ghost use Rattle.hal_names.specs.SeenNames.{seen_names};
ghost use Rattle.hal_operands.specs.Times as times;

use crate::pairs::pair_fault;
use crate::want::Want;
use crate::wants::misfit_at;
use hal_base::Place;
use hal_base::rules::{OPERAND_NOT_AN_EVENT, SEVERAL_ELEMENTS, TIME_NOT_AN_INTEGER};
use hal_kinds::{Class, class_of};
use hal_names::Names;
use hal_phrases::{Node, Phrase, Role};
use hal_scope::{builtin_named, holds_event, is_in_event, limit_of, refers_to_event, unless};
use hal_tree::{Expr, Reference, Subscript};
use hal_words::Name;

/// Whether the phrase with this number is an expression behind UNTIL of SCHEDULE or a part of one.
#[tactic(auto, using(hal_kinds::proofs::Options::some_mapped))]
fn is_limit_at(names: &Names<'_>, number: usize) -> bool
    ensures { result ≡ times.is_limit_at (seen_names names.now) number }
{
    match names.phrase(number) {
        None => false,
        Some(phrase) => limit_of(phrase.node).is_some(),
    }
}

/// Whether an expression of this role, part of the phrase with this number, is a whole time.
#[tactic(auto, unfolding(crate::specs::Times::is_whole_time))]
fn is_whole_time(names: &Names<'_>, parent: usize, role: Role) -> bool
    ensures { result ≡ times.is_whole_time (seen_names names.now) parent role }
{
    match role {
        Role::Time => true,
        Role::EventOrTime => !is_limit_at(names, parent),
        _ => false,
    }
}

/// Whether a decimal of this role, which is the whole expression with this number, is a whole time.
#[tactic(auto, unfolding(crate::specs::Times::is_timely))]
fn is_timely(names: &Names<'_>, number: usize, role: Role) -> bool
    ensures { result ≡ times.is_timely (seen_names names.now) number role }
{
    match names.phrase(number) {
        None => true,
        Some(phrase) => is_whole_time(names, phrase.around.parent, role),
    }
}

/// Where a phrase breaks rule 322 (language document, Kinds).
#[tactic(auto, unfolding(crate::specs::Times::untimely))]
pub fn untimely(names: &Names<'_>, phrase: &Phrase<'_>) -> Option<Place>
    ensures { result ≡ times.untimely (seen_names names.now) (seen_phrase phrase.now) (seen_phrase phrase.now).node }
{
    match phrase.node {
        Node::Decimal { role, place } => {
            unless(is_timely(names, phrase.around.parent, role), place)
        }
        _ => None,
    }
}

/// The rule that a time of this class breaks.
#[tactic(auto, unfolding(crate::specs::Times::misfit_of_time))]
fn misfit_of_time(class: Class) -> Option<u16>
    ensures { result ≡ times.misfit_of_time class }
{
    match class {
        Class::Integer => None,
        Class::Array => Some(SEVERAL_ELEMENTS),
        _ => Some(TIME_NOT_AN_INTEGER),
    }
}

/// The rule that a whole time breaks, and where.
fn time_fault(names: &Names<'_>, block: usize, tree: &Expr) -> Option<(u16, Place)>
    ensures { result ≡ times.time_fault (seen_names names.now) block (seen_expression tree.now) }
{
    let class = class_of(tree, names, block)?;
    let rule = misfit_of_time(class)?;
    Some((rule, tree.place()))
}

/// Whether there is no subscript.
#[tactic(auto, using(hal_tree::proofs::MadeExpressions::made_unsubscripted, hal_tree::proofs::MadeExpressions::made_by_name, hal_tree::proofs::MadeExpressions::made_by_integer, hal_tree::proofs::MadeExpressions::made_by_parts), unfolding(crate::specs::Times::is_unsubscripted))]
fn is_unsubscripted(subscript: &Subscript) -> bool
    ensures { result ≡ times.is_unsubscripted (seen_subscript subscript.now) }
{
    match subscript {
        Subscript::None => true,
        Subscript::Name { .. } => false,
        Subscript::Integer { .. } => false,
        Subscript::Parts { .. } => false,
    }
}

/// Whether a reference has no subscript.
#[tactic(auto, using(hal_tree::proofs::MadeExpressions::made_reference), unfolding(crate::specs::Times::is_plain))]
fn is_plain(reference: &Reference) -> bool
    ensures { result ≡ times.is_plain (seen_reference reference.now) }
{
    is_unsubscripted(&reference.subscript)
}

/// Whether a reference is an event or a process, or unknown.
#[tactic(auto, using(hal_tree::proofs::MadeExpressions::made_reference), unfolding(crate::specs::Times::is_event_operand))]
fn is_event_operand(names: &Names<'_>, block: usize, reference: &Reference) -> bool
    ensures { result ≡ times.is_event_operand (seen_names names.now) block (seen_reference reference.now) }
{
    if names.means(block, &reference.name).is_some() {
        refers_to_event(names, block, reference) && is_plain(reference)
    } else {
        !is_builtin(&reference.name)
    }
}

/// Whether this is the name of a built-in function.
fn is_builtin(name: &Name) -> bool
    ensures { result ≡ times.is_builtin name.now }
{
    builtin_named(name).is_some()
}

/// Whether an expression may stand in an event expression, its parts aside.
#[tactic(auto, using(hal_tree::proofs::MadeExpressions::made_or, hal_tree::proofs::MadeExpressions::made_and, hal_tree::proofs::MadeExpressions::made_compare, hal_tree::proofs::MadeExpressions::made_cat, hal_tree::proofs::MadeExpressions::made_sum, hal_tree::proofs::MadeExpressions::made_product, hal_tree::proofs::MadeExpressions::made_power, hal_tree::proofs::MadeExpressions::made_not, hal_tree::proofs::MadeExpressions::made_literal, hal_tree::proofs::MadeExpressions::made_decimal, hal_tree::proofs::MadeExpressions::made_referred, hal_tree::proofs::MadeExpressions::made_call, hal_tree::proofs::MadeExpressions::made_convert, hal_tree::proofs::MadeExpressions::made_parenthesis), unfolding(crate::specs::Times::is_event_part))]
fn is_event_part(names: &Names<'_>, block: usize, tree: &Expr) -> bool
    ensures { result ≡ times.is_event_part (seen_names names.now) block (seen_expression tree.now) }
{
    match tree {
        Expr::Or { .. } => true,
        Expr::And { .. } => true,
        Expr::Not { .. } => true,
        Expr::Parenthesis { .. } => true,
        Expr::Reference(reference) => is_event_operand(names, block, reference),
        Expr::Compare { .. } => false,
        Expr::Cat { .. } => false,
        Expr::Sum { .. } => false,
        Expr::Product { .. } => false,
        Expr::Power { .. } => false,
        Expr::Literal { .. } => false,
        Expr::Decimal { .. } => false,
        Expr::Call { .. } => false,
        Expr::Convert { .. } => false,
    }
}

/// Where an expression breaks rule 714 in an event expression.
fn event_fault(names: &Names<'_>, block: usize, tree: &Expr) -> Option<(u16, Place)>
    ensures { result ≡ times.event_fault (seen_names names.now) block (seen_expression tree.now) }
{
    if is_event_part(names, block, tree) {
        None
    } else {
        Some((OPERAND_NOT_AN_EVENT, tree.place()))
    }
}

/// What is wanted of the operands of an expression behind UNTIL of SCHEDULE that isn't one of events.
#[tactic(auto, using(hal_tree::proofs::MadeExpressions::made_or, hal_tree::proofs::MadeExpressions::made_and, hal_tree::proofs::MadeExpressions::made_compare, hal_tree::proofs::MadeExpressions::made_cat, hal_tree::proofs::MadeExpressions::made_sum, hal_tree::proofs::MadeExpressions::made_product, hal_tree::proofs::MadeExpressions::made_power, hal_tree::proofs::MadeExpressions::made_not, hal_tree::proofs::MadeExpressions::made_literal, hal_tree::proofs::MadeExpressions::made_decimal, hal_tree::proofs::MadeExpressions::made_referred, hal_tree::proofs::MadeExpressions::made_call, hal_tree::proofs::MadeExpressions::made_convert, hal_tree::proofs::MadeExpressions::made_parenthesis), unfolding(crate::specs::Times::wanted_within))]
fn wanted_within(tree: &Expr) -> Want
    ensures { result ≡ times.wanted_within (seen_expression tree.now) }
{
    match tree {
        Expr::Or { .. } => Want::Truth,
        Expr::And { .. } => Want::Truth,
        Expr::Not { .. } => Want::Bits,
        Expr::Parenthesis { .. } => Want::Single,
        Expr::Reference(_) => Want::Anything,
        Expr::Compare { .. } => Want::Anything,
        Expr::Cat { .. } => Want::Anything,
        Expr::Sum { .. } => Want::Anything,
        Expr::Product { .. } => Want::Anything,
        Expr::Power { .. } => Want::Anything,
        Expr::Literal { .. } => Want::Anything,
        Expr::Decimal { .. } => Want::Anything,
        Expr::Call { .. } => Want::Anything,
        Expr::Convert { .. } => Want::Anything,
    }
}

/// What is wanted of an operand of the phrase with this number, where that is such an expression.
fn wanted_at(names: &Names<'_>, number: usize) -> Want
    ensures { result ≡ times.wanted_at (seen_names names.now) number }
{
    let Some(phrase) = names.phrase(number) else {
        return Want::Anything;
    };
    match limit_of(phrase.node) {
        None => Want::Anything,
        Some(around) => wanted_within(around),
    }
}

/// The rule that such an expression breaks, or a part of one, and where.
fn eventless_fault(names: &Names<'_>, phrase: &Phrase<'_>, tree: &Expr) -> Option<(u16, Place)>
    ensures { result ≡ times.eventless_fault (seen_names names.now) (seen_phrase phrase.now) (seen_expression tree.now) }
{
    let around = phrase.around;
    let mismatched = pair_fault(names, around.block, tree);
    if mismatched.is_some() {
        return mismatched;
    }
    if is_limit_at(names, around.parent) {
        misfit_at(names, around.block, wanted_at(names, around.parent), tree)
    } else {
        time_fault(names, around.block, tree)
    }
}

/// The rule that an expression behind UNTIL of SCHEDULE breaks, or a part of one, and where.
fn limit_fault(names: &Names<'_>, phrase: &Phrase<'_>, tree: &Expr) -> Option<(u16, Place)>
    ensures { result ≡ times.limit_fault (seen_names names.now) (seen_phrase phrase.now) (seen_expression tree.now) }
{
    let block = phrase.around.block;
    let is_of_events = if is_limit_at(names, phrase.around.parent) {
        is_in_event(names, phrase)
    } else {
        holds_event(tree, names, block)
    };
    if is_of_events {
        return event_fault(names, block, tree);
    }
    eventless_fault(names, phrase, tree)
}

/// The rule that an expression of this role breaks, and where.
#[tactic(auto, unfolding(crate::specs::Times::timed))]
fn timed(names: &Names<'_>, phrase: &Phrase<'_>, role: Role, tree: &Expr) -> Option<(u16, Place)>
    ensures { result ≡ times.timed (seen_names names.now) (seen_phrase phrase.now) role (seen_expression tree.now) }
{
    match role {
        Role::Time => time_fault(names, phrase.around.block, tree),
        Role::Event => event_fault(names, phrase.around.block, tree),
        Role::EventOrTime => limit_fault(names, phrase, tree),
        _ => None,
    }
}

/// Which rule of 713 and 714 a phrase breaks, or behind UNTIL of SCHEDULE 702, 703, 708, 717 or 720, and where (language document, Kinds).
#[tactic(auto, unfolding(crate::specs::Times::mistimed))]
pub fn mistimed(names: &Names<'_>, phrase: &Phrase<'_>) -> Option<(u16, Place)>
    ensures { result ≡ times.mistimed (seen_names names.now) (seen_phrase phrase.now) (seen_phrase phrase.now).node }
{
    match phrase.node {
        Node::Expression { role, tree } => timed(names, phrase, role, tree),
        _ => None,
    }
}
