//! The classes of references.

ghost use Rattle.std.specs.Prelude.{◌≡◌, map};
ghost use Rattle.hal_tree.specs.SeenDeclarations.{seen_type};
ghost use Rattle.hal_tree.specs.SeenExpressions.{seen_reference, seen_subscript};
ghost use Rattle.hal_tree.specs.SeenLeaves.{seen_name};
ghost use Rattle.hal_tree.specs.SeenUnits.{seen_head, seen_returns};
ghost use Rattle.hal_phrases.specs.SeenPhrases.{seen_phrase};
ghost use Rattle.hal_names.specs.SeenNames.{seen_names};
ghost use Rattle.hal_kinds.specs.Classes as classes;

use crate::choosing::{chosen, class_left};
use crate::class::Class;
use crate::named::{class_of_type, data_at};
use hal_names::Names;
use hal_phrases::{Node, Phrase};
use hal_scope::{Builtin, Form, builtin_named};
use hal_tree::{Head, Identifier, Reference, Returns, Subscript, Type};
use hal_words::Name;

/// A result of this type; a function gives no event and no structure.
#[tactic(auto, using(hal_tree::proofs::MadeDeclarations::made_integer_type, hal_tree::proofs::MadeDeclarations::made_boolean_type, hal_tree::proofs::MadeDeclarations::made_event_type, hal_tree::proofs::MadeDeclarations::made_bit_type, hal_tree::proofs::MadeDeclarations::made_character_type, hal_tree::proofs::MadeDeclarations::made_structure_type), unfolding(crate::specs::Classes::class_of_result))]
fn class_of_result(kind: &Type) -> Option<Class>
    ensures { result ≡ classes.class_of_result (seen_type kind.now) }
{
    match kind {
        Type::Event { place: _ } => None,
        Type::Structure { .. } => None,
        Type::Integer { place: _ } => Some(class_of_type(kind)),
        Type::Boolean { place: _ } => Some(class_of_type(kind)),
        Type::Bit { .. } => Some(class_of_type(kind)),
        Type::Character { .. } => Some(class_of_type(kind)),
    }
}

/// The class of a FUNCTION's result; None where it has no type, or gives an event or a structure.
#[tactic(auto, using(hal_tree::proofs::MadeUnits::made_untyped, hal_tree::proofs::MadeUnits::made_typed_returns), unfolding(crate::specs::Classes::class_of_returns))]
pub fn class_of_returns(returns: &Returns) -> Option<Class>
    ensures { result ≡ classes.class_of_returns (seen_returns returns.now) }
{
    match returns {
        Returns::Untyped => None,
        Returns::Typed { kind, precision: _ } => class_of_result(kind),
    }
}

/// The name of a block as an operand: a process's is read as one bit, a function's calls it without arguments.
#[tactic(auto, using(hal_tree::proofs::MadeUnits::made_program, hal_tree::proofs::MadeUnits::made_compool, hal_tree::proofs::MadeUnits::made_task, hal_tree::proofs::MadeUnits::made_procedure, hal_tree::proofs::MadeUnits::made_function), unfolding(crate::specs::Classes::class_of_head))]
pub fn class_of_head(head: &Head) -> Option<Class>
    ensures { result ≡ classes.class_of_head (seen_head head.now) }
{
    match head {
        Head::Program { place: _ } => Some(Class::Bits),
        Head::Task { place: _ } => Some(Class::Bits),
        Head::Compool { place: _ } => None,
        Head::Procedure { .. } => None,
        Head::Function { returns, .. } => class_of_returns(returns),
    }
}

/// The name of a built-in function without a list.
#[tactic(auto, unfolding(crate::specs::Classes::class_of_form, crate::specs::Classes::class_of_builtin))]
fn class_of_builtin(builtin: Option<Builtin>) -> Option<Class>
    ensures { result ≡ classes.class_of_builtin builtin }
{
    match builtin?.form() {
        Form::Alone => Some(Class::Integer),
        Form::Listed | Form::Arrayed => None,
    }
}

/// A reference to data that a phrase declares.
fn class_of_data(
    names: &Names<'_>,
    phrase: &Phrase<'_>,
    path: &[Identifier],
    subscript: &Subscript,
) -> Option<Class>
    ensures { result ≡ classes.class_of_data (seen_names names.now) (seen_phrase phrase.now) (map seen_name path.now) (seen_subscript subscript.now) (seen_phrase phrase.now).node }
{
    let found = data_at(names, phrase, path)?;
    class_left(found, chosen(found, subscript))
}

/// A reference to what a phrase declares.
#[tactic(auto, unfolding(crate::specs::Classes::class_at))]
fn class_at(
    names: &Names<'_>,
    phrase: &Phrase<'_>,
    path: &[Identifier],
    subscript: &Subscript,
) -> Option<Class>
    ensures { result ≡ classes.class_at (seen_names names.now) (seen_phrase phrase.now) (map seen_name path.now) (seen_subscript subscript.now) (seen_phrase phrase.now).node }
{
    match phrase.node {
        Node::Template { head, .. } => class_of_head(head),
        Node::Unit { head, .. } => class_of_head(head),
        _ => class_of_data(names, phrase, path, subscript),
    }
}

/// The class of a name with further names and a subscript in this block.
#[tactic(auto, using(hal_scope::proofs::Lists::nil_seen))]
fn class_of_path(
    names: &Names<'_>,
    block: usize,
    name: &Name,
    path: &[Identifier],
    subscript: &Subscript,
) -> Option<Class>
    ensures { result ≡ classes.class_of_path (seen_names names.now) block name.now (map seen_name path.now) (seen_subscript subscript.now) }
{
    match names.means(block, name) {
        None => {
            if path.is_empty() {
                class_of_builtin(builtin_named(name))
            } else {
                None
            }
        }
        Some(number) => {
            let phrase = names.phrase(number)?;
            class_at(names, &phrase, path, subscript)
        }
    }
}

/// The class of a name alone in this block; None where it has none (language document, Kinds).
#[tactic(auto, using(hal_tree::proofs::MadeExpressions::made_unsubscripted))]
pub fn class_of_name(names: &Names<'_>, block: usize, name: &Name) -> Option<Class>
    ensures { result ≡ classes.class_of_name (seen_names names.now) block name.now }
{
    let whole = Subscript::None;
    class_of_path(names, block, name, &[], &whole)
}

/// The class of a reference in this block; None where it has none (language document, Kinds).
#[tactic(auto, using(hal_tree::proofs::MadeExpressions::made_reference), unfolding(crate::specs::Classes::class_of_reference))]
pub fn class_of_reference(names: &Names<'_>, block: usize, reference: &Reference) -> Option<Class>
    ensures { result ≡ classes.class_of_reference (seen_names names.now) block (seen_reference reference.now) }
{
    class_of_path(
        names,
        block,
        &reference.name,
        &reference.further,
        &reference.subscript,
    )
}
