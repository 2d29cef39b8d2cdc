//! What the phrases are that declare names, and what names are used for.

ghost use Rattle.std.specs.Prelude.{◌≡◌, map};
ghost use Rattle.std.specs.Option.{option_map};
ghost use Rattle.hal_tree.specs.SeenDeclarations.{seen_attribute, seen_declared, seen_type};
ghost use Rattle.hal_tree.specs.SeenExpressions.{seen_reference};
ghost use Rattle.hal_tree.specs.SeenUnits.{seen_head};
ghost use Rattle.hal_phrases.specs.SeenPhrases.{seen_node};
ghost use Rattle.hal_scope.specs.Sorts as sorts;

use crate::builtin::Form;
use crate::sort::Sort;
use crate::usage::Usage;
use crate::used::Use;
use hal_phrases::{Node, Role};
use hal_tree::{Attribute, Declared, Head, Type};

/// The type that an attribute is.
#[tactic(auto, using(hal_tree::proofs::MadeDeclarations::made_dimensions, hal_tree::proofs::MadeDeclarations::made_typed, hal_tree::proofs::MadeDeclarations::made_marked, hal_tree::proofs::MadeDeclarations::made_lock_group, hal_tree::proofs::MadeDeclarations::made_lock_any, hal_tree::proofs::MadeDeclarations::made_initial, hal_tree::proofs::MadeDeclarations::made_constant), unfolding(crate::specs::Sorts::type_in))]
fn type_in<'a>(attribute: &'a Attribute) -> Option<&'a Type>
    ensures { option_map (λ kind. seen_type kind.now) result ≡ sorts.type_in (seen_attribute attribute.now) }
{
    match attribute {
        Attribute::Typed(kind) => Some(kind),
        Attribute::Dimensions { .. } => None,
        Attribute::Marked { .. } => None,
        Attribute::LockGroup { .. } => None,
        Attribute::LockAny { .. } => None,
        Attribute::Initial { .. } => None,
        Attribute::Constant { .. } => None,
    }
}

/// The first type among attributes.
#[tactic(auto, unfolding(crate::specs::Sorts::type_among))]
pub fn type_among<'a>(attributes: &'a [Attribute]) -> Option<&'a Type>
    ensures { option_map (λ kind. seen_type kind.now) result ≡ sorts.type_among (map seen_attribute attributes.now) }
{
    for attribute in attributes {
        let kind = type_in(attribute);
        if kind.is_some() {
            return kind;
        }
    }
    None
}

/// The type of a name that is declared: its own, else the one before the comma.
#[tactic(auto, using(hal_tree::proofs::MadeDeclarations::made_declared))]
pub fn type_of<'a>(common: &'a [Attribute], item: &'a Declared) -> Option<&'a Type>
    ensures { option_map (λ kind. seen_type kind.now) result ≡ sorts.type_of (map seen_attribute common.now) (seen_declared item.now) }
{
    let own = type_among(&item.attributes);
    if own.is_some() {
        return own;
    }
    type_among(common)
}

/// Data, or an event where the type says so.
#[tactic(auto, using(hal_tree::proofs::MadeDeclarations::made_integer_type, hal_tree::proofs::MadeDeclarations::made_boolean_type, hal_tree::proofs::MadeDeclarations::made_event_type, hal_tree::proofs::MadeDeclarations::made_bit_type, hal_tree::proofs::MadeDeclarations::made_character_type, hal_tree::proofs::MadeDeclarations::made_structure_type), unfolding(crate::specs::Sorts::sort_of_type))]
fn sort_of_type(kind: Option<&Type>) -> Sort
    ensures { result ≡ sorts.sort_of_type (option_map (λ kind. seen_type kind.now) kind.entry) }
{
    match kind {
        None => Sort::Data,
        Some(Type::Event { place: _ }) => Sort::Event,
        Some(Type::Integer { place: _ }) => Sort::Data,
        Some(Type::Boolean { place: _ }) => Sort::Data,
        Some(Type::Bit { .. }) => Sort::Data,
        Some(Type::Character { .. }) => Sort::Data,
        Some(Type::Structure { .. }) => Sort::Data,
    }
}

/// A block, by its head.
#[tactic(auto, using(hal_tree::proofs::MadeUnits::made_program, hal_tree::proofs::MadeUnits::made_compool, hal_tree::proofs::MadeUnits::made_task, hal_tree::proofs::MadeUnits::made_procedure, hal_tree::proofs::MadeUnits::made_function), unfolding(crate::specs::Sorts::sort_of_head))]
fn sort_of_head(head: &Head) -> Sort
    ensures { result ≡ sorts.sort_of_head (seen_head head.now) }
{
    match head {
        Head::Program { place: _ } => Sort::Process,
        Head::Compool { place: _ } => Sort::Compool,
        Head::Task { place: _ } => Sort::Process,
        Head::Procedure { .. } => Sort::Procedure,
        Head::Function { .. } => Sort::Function,
    }
}

/// What a phrase declares; None where it declares no name that is found in a block.
#[tactic(auto, unfolding(crate::specs::Sorts::sort_of))]
pub fn sort_of(node: Node<'_>) -> Option<Sort>
    ensures { result ≡ sorts.sort_of (seen_node node.entry) }
{
    match node {
        Node::Template { head, .. } => Some(sort_of_head(head)),
        Node::Unit { head, .. } => Some(sort_of_head(head)),
        Node::Item { common, item } => Some(sort_of_type(type_of(common, item))),
        Node::Structure { name: _, parts: _ } => Some(Sort::Structure),
        Node::Label { name: _ } => Some(Sort::Label),
        Node::TemporaryGroup {
            labels: _,
            variable: _,
        } => Some(Sort::Data),
        _ => None,
    }
}

/// What a reference of this role is used for.
#[tactic(auto, unfolding(crate::specs::Sorts::usage_of))]
fn usage_of(role: Role) -> Usage
    ensures { result ≡ sorts.usage_of role }
{
    match role {
        Role::Receiver => Usage::Receiver,
        Role::Output => Usage::Output,
        Role::Event => Usage::EventOperand,
        Role::EventOrTime => Usage::EventOrTime,
        _ => Usage::Value,
    }
}

/// The name that a phrase uses.
#[tactic(auto, using(hal_tree::proofs::MadeExpressions::made_reference), unfolding(crate::specs::Sorts::used, crate::specs::Sorts::use_of_reference))]
pub(crate) fn used(node: Node<'_>) -> Option<Use>
    ensures { result ≡ sorts.used (seen_node node.entry) }
{
    let (place, name, usage) = match node {
        Node::Reference { role, reference } => (reference.place, reference.name, usage_of(role)),
        Node::SubscriptName { name } => (name.place, name.name, Usage::Value),
        Node::InitialName { name } => (name.place, name.name, Usage::Value),
        Node::CallForm { place, name, .. } => (*place, *name, Usage::CallForm),
        Node::StructureType { place, template } => (place, *template, Usage::StructureType),
        Node::Variable { name } => (name.place, name.name, Usage::Variable),
        Node::Call { name, .. } => (name.place, name.name, Usage::Called),
        Node::Process { name } => (name.place, name.name, Usage::Process),
        Node::Event(event) => (event.name.place, event.name.name, Usage::Event),
        _ => return None,
    };
    Some(Use { place, name, usage })
}

/// Whether a name of this sort may be used so, or another rule names the case.
pub(crate) fn fits(usage: Usage, sort: Sort) -> bool
    ensures { result ≡ sorts.fits usage sort }
{
    match usage {
        Usage::Value | Usage::EventOrTime => is_operand(sort),
        Usage::Receiver => !matches!(sort, Sort::Structure),
        Usage::StructureType => matches!(sort, Sort::Structure),
        Usage::Called => matches!(sort, Sort::Procedure),
        Usage::Event => matches!(sort, Sort::Event),
        Usage::Output | Usage::EventOperand | Usage::CallForm => true,
        Usage::Variable | Usage::Process => true,
    }
}

/// Whether a name of this sort may be an operand.
pub fn is_operand(sort: Sort) -> bool
    ensures { result ≡ sorts.is_operand sort }
{
    match sort {
        Sort::Data | Sort::Event | Sort::Process | Sort::Function => true,
        Sort::Structure | Sort::Label | Sort::Compool | Sort::Procedure => false,
    }
}

/// Whether a built-in function that is named so is known where its name is used so.
pub(crate) fn is_known(usage: Usage, form: Form) -> bool
    ensures { result ≡ sorts.is_known usage form }
{
    match form {
        Form::Listed | Form::Alone => true,
        Form::Arrayed => matches!(usage, Usage::CallForm),
    }
}

/// Whether a built-in function that is known there may be used so, or another rule names the case.
pub(crate) fn fits_builtin(usage: Usage, form: Form) -> bool
    ensures { result ≡ sorts.fits_builtin usage form }
{
    match usage {
        Usage::Value | Usage::EventOrTime => matches!(form, Form::Alone),
        Usage::Receiver | Usage::StructureType | Usage::Called | Usage::Event => false,
        Usage::Output | Usage::EventOperand | Usage::CallForm => true,
        Usage::Variable | Usage::Process => true,
    }
}
