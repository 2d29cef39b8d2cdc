//! Call forms and calls.

ghost use Rattle.std.specs.Prelude.{◌≡◌, map, length};
ghost use Rattle.hal_tree.specs.Rows.{expressions};
ghost use Rattle.hal_tree.specs.SeenExpressions.{seen_expression, seen_reference};
ghost use Rattle.hal_tree.specs.SeenLeaves.{seen_name};
ghost use Rattle.hal_tree.specs.SeenUnits.{seen_head};
ghost use Rattle.hal_phrases.specs.SeenPhrases.{seen_node, seen_phrase};
ghost use Rattle.hal_names.specs.SeenNames.{seen_names};
ghost use Rattle.hal_uses.specs.Calls as calls;

use crate::arguments::{builtin_fault, condition_fault};
use hal_base::Place;
use hal_base::rules::{NOT_CALLABLE, WRONG_ARGUMENTS};
use hal_kinds::{Choice, Data, class_in, data_at};
use hal_names::Names;
use hal_operands::{Want, misfit, misfit_at};
use hal_phrases::{Node, Phrase, Role};
use hal_tree::{Expr, Head, Identifier, Reference};
use hal_words::Name;

/// The call form of a block.
#[tactic(auto, using(hal_tree::proofs::MadeUnits::made_program, hal_tree::proofs::MadeUnits::made_compool, hal_tree::proofs::MadeUnits::made_task, hal_tree::proofs::MadeUnits::made_procedure, hal_tree::proofs::MadeUnits::made_function, hal_kinds::proofs::Lists::counted, hal_kinds::proofs::Lists::all_mapped), unfolding(crate::specs::Calls::head_fault))]
fn head_fault(
    names: &Names<'_>,
    block: usize,
    place: Place,
    head: &Head,
    arguments: &[Expr],
) -> Option<(u16, Place)>
    ensures { result ≡ calls.head_fault (seen_names names.now) block place (seen_head head.now) (expressions (map seen_expression arguments.now)) }
{
    match head {
        Head::Function { inputs, .. } => {
            if inputs.len() == arguments.len() {
                condition_fault(names, block, arguments)
            } else {
                Some((WRONG_ARGUMENTS, place))
            }
        }
        Head::Program { place: _ } => Some((NOT_CALLABLE, place)),
        Head::Task { place: _ } => Some((NOT_CALLABLE, place)),
        Head::Compool { place: _ } => Some((NOT_CALLABLE, place)),
        Head::Procedure { .. } => Some((NOT_CALLABLE, place)),
    }
}

/// Data without a subscript, as a factor.
fn factor_fault(place: Place, found: Option<Data>) -> Option<(u16, Place)>
    ensures { result ≡ calls.factor_fault place found }
{
    let whole = Choice {
        copies: 0,
        places: 0,
        components: 0,
        many_copies: false,
        many_places: false,
    };
    let rule = misfit(Want::Integer, class_in(found?, whole))?;
    Some((rule, place))
}

/// The two factors of the product of a variable and a parenthesis.
fn factors_fault(
    names: &Names<'_>,
    block: usize,
    place: Place,
    found: Option<Data>,
    argument: &Expr,
) -> Option<(u16, Place)>
    ensures { result ≡ calls.factors_fault (seen_names names.now) block place found (seen_expression argument.now) }
{
    let fault = factor_fault(place, found);
    if fault.is_some() {
        return fault;
    }
    misfit_at(names, block, Want::Integer, argument)
}

/// The product of a variable and a parenthesis, which is no operand of a power.
#[tactic(auto, using(hal_kinds::proofs::Lists::none_left), unfolding(crate::specs::Calls::product_fault, hal_tree::specs::Rows::expressions))]
fn product_fault(
    names: &Names<'_>,
    block: usize,
    place: Place,
    found: Option<Data>,
    raised: bool,
    arguments: &[Expr],
) -> Option<(u16, Place)>
    ensures { result ≡ calls.product_fault (seen_names names.now) block place found raised (expressions (map seen_expression arguments.now)) }
{
    if raised {
        return Some((NOT_CALLABLE, place));
    }
    let Some((argument, others)) = arguments.split_first() else {
        return Some((NOT_CALLABLE, place));
    };
    if others.is_empty() {
        factors_fault(names, block, place, found, argument)
    } else {
        Some((NOT_CALLABLE, place))
    }
}

/// Whether an expression is raised to a power.
#[tactic(auto, unfolding(crate::specs::Calls::is_base))]
fn is_base(node: Node<'_>) -> bool
    ensures { result ≡ calls.is_base (seen_node node.entry) }
{
    match node {
        Node::Expression { role, tree: _ } => match role {
            Role::Base => true,
            _ => false,
        },
        _ => false,
    }
}

/// Whether the expression that is the phrase with this number is raised to a power.
fn is_raised(names: &Names<'_>, number: usize) -> bool
    ensures { result ≡ calls.is_raised (seen_names names.now) number }
{
    match names.phrase(number) {
        None => false,
        Some(phrase) => is_base(phrase.node),
    }
}

/// The call form, by a phrase, of what another phrase declares.
#[tactic(auto, unfolding(crate::specs::Calls::declared_fault))]
fn declared_fault(
    names: &Names<'_>,
    phrase: &Phrase<'_>,
    place: Place,
    arguments: &[Expr],
    declared: &Phrase<'_>,
) -> Option<(u16, Place)>
    ensures { result ≡ calls.declared_fault (seen_names names.now) (seen_phrase phrase.now) place (expressions (map seen_expression arguments.now)) (seen_phrase declared.now) (seen_phrase declared.now).node }
{
    let block = phrase.around.block;
    match declared.node {
        Node::Template { head, .. } => head_fault(names, block, place, head, arguments),
        Node::Unit { head, .. } => head_fault(names, block, place, head, arguments),
        Node::Item { .. } => product_fault(
            names,
            block,
            place,
            data_at(names, declared, &[]),
            is_raised(names, phrase.around.parent),
            arguments,
        ),
        Node::TemporaryGroup { .. } => product_fault(
            names,
            block,
            place,
            data_at(names, declared, &[]),
            is_raised(names, phrase.around.parent),
            arguments,
        ),
        _ => Some((NOT_CALLABLE, place)),
    }
}

/// The call form of a name.
fn call_form_fault(
    names: &Names<'_>,
    phrase: &Phrase<'_>,
    place: Place,
    name: &Name,
    arguments: &[Expr],
) -> Option<(u16, Place)>
    ensures { result ≡ calls.call_form_fault (seen_names names.now) (seen_phrase phrase.now) place name.now (expressions (map seen_expression arguments.now)) }
{
    match names.means(phrase.around.block, name) {
        None => builtin_fault(names, phrase.around.block, place, name, arguments),
        Some(number) => {
            let declared = names.phrase(number)?;
            declared_fault(names, phrase, place, arguments, &declared)
        }
    }
}

/// CALL of a block.
#[tactic(auto, using(hal_tree::proofs::MadeUnits::made_program, hal_tree::proofs::MadeUnits::made_compool, hal_tree::proofs::MadeUnits::made_task, hal_tree::proofs::MadeUnits::made_procedure, hal_tree::proofs::MadeUnits::made_function, hal_kinds::proofs::Lists::counted, hal_kinds::proofs::Lists::all_mapped), unfolding(crate::specs::Calls::called_head_fault))]
fn called_head_fault(
    names: &Names<'_>,
    block: usize,
    place: Place,
    receivers: usize,
    arguments: &[Expr],
    head: &Head,
) -> Option<(u16, Place)>
    ensures { result ≡ calls.called_head_fault (seen_names names.now) block place (length arguments.now) receivers (expressions (map seen_expression arguments.now)) (seen_head head.now) }
{
    match head {
        Head::Procedure {
            inputs,
            outputs,
            ..
        } => {
            if inputs.len() == arguments.len() && outputs.len() == receivers {
                condition_fault(names, block, arguments)
            } else {
                Some((WRONG_ARGUMENTS, place))
            }
        }
        Head::Program { place: _ } => None,
        Head::Task { place: _ } => None,
        Head::Compool { place: _ } => None,
        Head::Function { .. } => None,
    }
}

/// CALL of what a phrase declares.
#[tactic(auto, unfolding(crate::specs::Calls::called_fault))]
fn called_fault(
    names: &Names<'_>,
    block: usize,
    place: Place,
    receivers: usize,
    arguments: &[Expr],
    node: Node<'_>,
) -> Option<(u16, Place)>
    ensures { result ≡ calls.called_fault (seen_names names.now) block place (length arguments.now) receivers (expressions (map seen_expression arguments.now)) (seen_node node.entry) }
{
    match node {
        Node::Template { head, .. } => {
            called_head_fault(names, block, place, receivers, arguments, head)
        }
        Node::Unit { head, .. } => {
            called_head_fault(names, block, place, receivers, arguments, head)
        }
        _ => None,
    }
}

/// CALL.
#[tactic(auto, using(hal_kinds::proofs::Lists::counted, hal_kinds::proofs::Lists::all_mapped))]
fn call_fault(
    names: &Names<'_>,
    block: usize,
    name: &Identifier,
    arguments: &[Expr],
    receivers: &[Reference],
) -> Option<(u16, Place)>
    ensures { result ≡ calls.call_fault (seen_names names.now) block (seen_name name.now) (expressions (map seen_expression arguments.now)) (map seen_reference receivers.now) }
{
    let number = names.means(block, &name.name)?;
    let declared = names.phrase(number)?;
    called_fault(
        names,
        block,
        name.place,
        receivers.len(),
        arguments,
        declared.node,
    )
}

/// Whether a block takes arguments and gives a value.
#[tactic(auto, using(hal_tree::proofs::MadeUnits::made_program, hal_tree::proofs::MadeUnits::made_compool, hal_tree::proofs::MadeUnits::made_task, hal_tree::proofs::MadeUnits::made_procedure, hal_tree::proofs::MadeUnits::made_function, hal_scope::proofs::Lists::nil_seen), unfolding(crate::specs::Calls::lacks_arguments_head))]
fn lacks_arguments_head(head: &Head) -> bool
    ensures { result ≡ calls.lacks_arguments_head (seen_head head.now) }
{
    match head {
        Head::Function { inputs, .. } => !inputs.is_empty(),
        Head::Program { place: _ } => false,
        Head::Task { place: _ } => false,
        Head::Compool { place: _ } => false,
        Head::Procedure { .. } => false,
    }
}

/// The same of what a phrase declares.
#[tactic(auto, unfolding(crate::specs::Calls::lacks_arguments))]
fn lacks_arguments(node: Node<'_>) -> bool
    ensures { result ≡ calls.lacks_arguments (seen_node node.entry) }
{
    match node {
        Node::Template { head, .. } => lacks_arguments_head(head),
        Node::Unit { head, .. } => lacks_arguments_head(head),
        _ => false,
    }
}

/// The name of a FUNCTION without the arguments that it takes, at this place.
fn lone_fault(names: &Names<'_>, block: usize, place: Place, name: &Name) -> Option<(u16, Place)>
    ensures { result ≡ calls.lone_fault (seen_names names.now) block place name.now }
{
    let number = names.means(block, name)?;
    let declared = names.phrase(number)?;
    if lacks_arguments(declared.node) {
        Some((WRONG_ARGUMENTS, place))
    } else {
        None
    }
}

/// The same of a reference.
#[tactic(auto, using(hal_tree::proofs::MadeExpressions::made_reference), unfolding(crate::specs::Calls::alone_fault))]
fn alone_fault(names: &Names<'_>, block: usize, reference: &Reference) -> Option<(u16, Place)>
    ensures { result ≡ calls.alone_fault (seen_names names.now) block (seen_reference reference.now) }
{
    lone_fault(names, block, reference.place, &reference.name)
}

/// Which rule of 329, 705 and 716 a phrase breaks, or 702, 703 and 720 by an argument, and where (language document, Kinds).
#[tactic(auto, unfolding(crate::specs::Calls::miscalled, crate::specs::Calls::is_operand_role))]
pub fn miscalled(names: &Names<'_>, phrase: &Phrase<'_>) -> Option<(u16, Place)>
    ensures { result ≡ calls.miscalled (seen_names names.now) (seen_phrase phrase.now) (seen_phrase phrase.now).node }
{
    match phrase.node {
        Node::CallForm {
            place,
            name,
            arguments,
        } => call_form_fault(names, phrase, *place, name, arguments),
        Node::Call {
            name,
            arguments,
            receivers,
        } => call_fault(names, phrase.around.block, name, arguments, receivers),
        Node::Reference { role, reference } => match role {
            Role::Receiver | Role::Output | Role::Event => None,
            _ => alone_fault(names, phrase.around.block, reference),
        },
        Node::SubscriptName { name } => {
            lone_fault(names, phrase.around.block, name.place, &name.name)
        }
        _ => None,
    }
}
