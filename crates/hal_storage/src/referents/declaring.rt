//! What phrases declare.

ghost use Rattle.std.specs.Prelude.{◌≡◌, ◌≤◌, ◌+◌, ◌++◌, ◌∷◌, [], IfOk, OnOk, length, map};
ghost use Rattle.hal_tree.specs.SeenDeclarations.{seen_attribute, seen_declared};
ghost use Rattle.hal_tree.specs.SeenUnits.{seen_head};
ghost use Rattle.hal_phrases.specs.SeenPhrases.{seen_phrase};
ghost use Rattle.hal_names.specs.SeenNames.{seen_names};
ghost use Rattle.hal_constants.specs.SeenKnown.{seen_known};
ghost use Rattle.hal_storage.specs.cells.SeenStoring.{seen_storing};
ghost use Rattle.hal_storage.specs.elements.SeenComponents.{seen_shape};
ghost use Rattle.hal_meaning.specs.Bodies as bodies;
ghost use Rattle.hal_meaning.specs.Events as meant;
ghost use Rattle.hal_meaning.specs.Variables.{temporary_shape};
ghost use Rattle.hal_storage.specs.referents.Referents as referents;
ghost use Rattle.hal_storage.specs.referents.SeenReferents.{seen_referent};

use crate::cells::{Storing, storing_of};
use crate::elements::{Component, Shape, shape_of};
use crate::event_expressions::event_of;
use crate::events::declared_events;
use crate::referents::referent::Referent;
use hal_constants::{Known, is_value_item};
use hal_kinds::is_event_type;
use hal_names::Names;
use hal_phrases::{Node, Phrase};
use hal_reach::processes_of;
use hal_scope::type_of;
use hal_tree::{Attribute, Declared, Head};
use hal_values::{Kind, Value};
use std::alloc::{AllocError, Global};

/// The event that the phrase with this number declares, as a process or as an event.
fn event_referent(
    names: &Names<'_>,
    processes: &[usize],
    declared: &[usize],
    number: usize,
) -> Referent
    requires few { length processes.now + length declared.now ≤ 65535 }
    requires of_processes { processes.now ≡ bodies.processes_of (seen_names names.now) }
    requires of_events { declared.now ≡ meant.declared_events (seen_names names.now) }
    ensures { seen_referent result ≡ referents.event_referent (seen_names names.now) number }
{
    match event_of(processes, declared, number) {
        None => Referent::Nothing,
        Some(event) => Referent::Event(event),
    }
}

/// The value of a constant; one that isn't known is 0, to which no accepted set comes.
fn value_of(known: &Known, number: usize) -> Value
    ensures { result ≡ referents.constant_value (seen_known known.now) number }
{
    match known.value(number) {
        None => Value::Int(0),
        Some(value) => value,
    }
}

/// A constant.
fn constant_referent(alloc: Global, known: &Known, number: usize) -> Result<Referent, AllocError>
    ensures { IfOk result (λ one. seen_referent one ≡ referents.constant_referent (seen_known known.now) number) }
{
    Ok(Referent::Constant(Box::new(alloc, value_of(known, number))?))
}

/// What an item declares that is stored so.
fn item_referent(
    alloc: Global,
    names: &Names<'_>,
    known: &Known,
    processes: &[usize],
    declared: &[usize],
    phrase: &Phrase<'_>,
    common: &[Attribute],
    item: &Declared,
    stored: Storing,
) -> Result<Referent, AllocError>
    requires few { length processes.now + length declared.now ≤ 65535 }
    requires of_processes { processes.now ≡ bodies.processes_of (seen_names names.now) }
    requires of_events { declared.now ≡ meant.declared_events (seen_names names.now) }
    ensures { IfOk result (λ one. seen_referent one ≡ referents.item_referent (seen_names names.now) (seen_known known.now) (seen_phrase phrase.now) (map seen_attribute common.now) (seen_declared item.now) (seen_storing stored)) }
{
    if is_event_type(type_of(common, item)) {
        return Ok(event_referent(names, processes, declared, phrase.number));
    }
    if is_value_item(common, item) {
        return constant_referent(alloc, known, phrase.number);
    }
    Ok(Referent::Data {
        declared: phrase.number,
        stored,
        shape: shape_of(alloc, names, known, phrase, common, item)?,
    })
}

/// The shape of a TEMPORARY variable: one integer.
fn temporary_shape(alloc: Global) -> Result<Shape, AllocError>
    ensures { IfOk result (λ shape. seen_shape shape ≡ temporary_shape) }
{
    let mut components = Vec::new(alloc);
    components.push(Component {
        path: Vec::new(alloc),
        kind: Kind::Double,
        sizes: Vec::new(alloc),
    })?;
    Ok(Shape {
        copies: None,
        components,
    })
}

/// A TEMPORARY variable of the group with this number.
fn temporary_referent(alloc: Global, group: usize) -> Result<Referent, AllocError>
    ensures { IfOk result (λ one. seen_referent one ≡ referents.temporary_referent group) }
{
    Ok(Referent::Data {
        declared: group,
        stored: Storing::InPlaces,
        shape: temporary_shape(alloc)?,
    })
}

/// A unit with this number.
#[tactic(auto, using(hal_tree::proofs::MadeUnits::made_program, hal_tree::proofs::MadeUnits::made_compool, hal_tree::proofs::MadeUnits::made_task, hal_tree::proofs::MadeUnits::made_procedure, hal_tree::proofs::MadeUnits::made_function))]
fn head_referent(
    names: &Names<'_>,
    processes: &[usize],
    declared: &[usize],
    number: usize,
    head: &Head,
) -> Referent
    requires few { length processes.now + length declared.now ≤ 65535 }
    requires of_processes { processes.now ≡ bodies.processes_of (seen_names names.now) }
    requires of_events { declared.now ≡ meant.declared_events (seen_names names.now) }
    ensures { seen_referent result ≡ referents.head_referent (seen_names names.now) number (seen_head head.now) }
{
    match head {
        Head::Program { .. } => event_referent(names, processes, declared, number),
        Head::Task { .. } => event_referent(names, processes, declared, number),
        Head::Compool { .. } => Referent::Nothing,
        Head::Procedure { .. } => Referent::Block(number),
        Head::Function { .. } => Referent::Block(number),
    }
}

/// What a phrase declares.
fn phrase_referent(
    alloc: Global,
    names: &Names<'_>,
    known: &Known,
    processes: &[usize],
    declared: &[usize],
    phrase: &Phrase<'_>,
) -> Result<Referent, AllocError>
    requires few { length processes.now + length declared.now ≤ 65535 }
    requires of_processes { processes.now ≡ bodies.processes_of (seen_names names.now) }
    requires of_events { declared.now ≡ meant.declared_events (seen_names names.now) }
    ensures { IfOk result (λ one. seen_referent one ≡ referents.phrase_referent (seen_names names.now) (seen_known known.now) (seen_phrase phrase.now)) }
{
    let stored = storing_of(names, known, phrase);
    match phrase.node {
        Node::Item { common, item } => item_referent(
            alloc, names, known, processes, declared, phrase, common, item, stored,
        ),
        Node::TemporaryGroup { .. } => temporary_referent(alloc, phrase.number),
        Node::Unit {
            name: _,
            head,
            declarations: _,
        } => { Ok(head_referent(names, processes, declared, phrase.number, head)) }
        _ => Ok(Referent::Nothing),
    }
}

/// Adds what a phrase declares.
#[tactic(auto, using(crate::proofs::elements::Repeated::one_mapped), unfolding(crate::specs::referents::Referents::with_referent))]
fn push_referent(
    alloc: Global,
    into: &mut Vec<Referent>,
    names: &Names<'_>,
    known: &Known,
    processes: &[usize],
    declared: &[usize],
    phrase: &Phrase<'_>,
) -> Result<(), AllocError>
    requires few { length processes.now + length declared.now ≤ 65535 }
    requires of_processes { processes.now ≡ bodies.processes_of (seen_names names.now) }
    requires of_events { declared.now ≡ meant.declared_events (seen_names names.now) }
    ensures { OnOk result (map seen_referent into.new.items ≡ referents.with_referent (seen_names names.now) (seen_known known.now) (map seen_referent into.old.items) (seen_phrase phrase.now)) }
{
    let one = phrase_referent(alloc, names, known, processes, declared, phrase)?;
    into.push(one)?;
    Ok(())
}

/// Adds what phrases declare, in order, among these processes and declared events.
#[tactic(auto, unfolding(crate::specs::referents::Referents::with_referents))]
fn push_referents(
    alloc: Global,
    into: &mut Vec<Referent>,
    names: &Names<'_>,
    known: &Known,
    processes: &[usize],
    declared: &[usize],
    phrases: &[Phrase<'_>],
) -> Result<(), AllocError>
    requires few { length processes.now + length declared.now ≤ 65535 }
    requires of_processes { processes.now ≡ bodies.processes_of (seen_names names.now) }
    requires of_events { declared.now ≡ meant.declared_events (seen_names names.now) }
    ensures { OnOk result (map seen_referent into.new.items ≡ referents.with_referents (seen_names names.now) (seen_known known.now) (map seen_referent into.old.items) (map seen_phrase phrases.now)) }
{
    for phrase in phrases {
        push_referent(alloc, into, names, known, processes, declared, phrase)?;
    }
    Ok(())
}

/// What each phrase of a set of files declares, in order, where there are at most 65,535 processes and declared events (language document, Names).
#[tactic(auto, using(crate::proofs::referents::Listed::referred))]
pub fn referents_of(
    alloc: Global,
    names: &Names<'_>,
    known: &Known,
) -> Result<Vec<Referent>, AllocError>
    requires few { length (bodies.processes_of (seen_names names.now)) + length (meant.declared_events (seen_names names.now)) ≤ 65535 }
    ensures { IfOk result (λ list. map seen_referent list.items ≡ referents.referents (seen_names names.now) (seen_known known.now)) }
{
    let processes = processes_of(alloc, names)?;
    let declared = declared_events(alloc, names)?;
    let mut list = Vec::with_capacity(alloc, names.phrases().len())?;
    push_referents(
        alloc,
        &mut list,
        names,
        known,
        &processes,
        &declared,
        names.phrases(),
    )?;
    Ok(list)
}
