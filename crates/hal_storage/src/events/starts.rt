//! How events begin.

ghost use Rattle.std.specs.Prelude.{◌≡◌, map, IfOk};
ghost use Rattle.hal_tree.specs.SeenDeclarations.{seen_attribute, seen_declared};
ghost use Rattle.hal_phrases.specs.SeenPhrases.{seen_phrase};
ghost use Rattle.hal_names.specs.SeenNames.{seen_names};
ghost use Rattle.hal_constants.specs.SeenKnown.{seen_known};
ghost use Rattle.hal_meaning.specs.Events as events;
ghost use Rattle.hal_storage.specs.events.Starts as starts;

use crate::events::declared::declared_events;
use crate::first_values::first_values;
use hal_constants::Known;
use hal_kinds::is_marked;
use hal_names::Names;
use hal_phrases::{Node, Phrase};
use hal_tree::{Attribute, Declared, Mark};
use hal_values::{EventStart, Kind, Value};
use std::alloc::{AllocError, Global};

/// Whether the first of these values is TRUE.
fn is_set(values: &[Value]) -> bool
    ensures { result ≡ events.is_set values.now }
{
    match values.split_first() {
        None => false,
        Some((value, _)) => match value {
            Value::Bits { len: _, word } => 0 < *word,
            Value::Int(_) => false,
            Value::Text(_) => false,
        },
    }
}

/// How an event begins that is declared behind these common attributes.
#[tactic(auto, using(crate::proofs::elements::Attributes::mark_behind))]
fn start_of_item(
    alloc: Global,
    names: &Names<'_>,
    known: &Known,
    phrase: &Phrase<'_>,
    common: &[Attribute],
    item: &Declared,
) -> Result<EventStart, AllocError>
    ensures { IfOk result (λ start. start ≡ starts.start_of_item (seen_names names.now) (seen_known known.now) (seen_phrase phrase.now) (map seen_attribute common.now) (seen_declared item.now)) }
{
    if !is_marked(Mark::Latched, common, item) {
        return Ok(EventStart::Unlatched);
    }
    let kinds = [Kind::Bits(1)];
    let values = first_values(alloc, names, known, phrase, common, item, &kinds)?;
    Ok(EventStart::Latched(is_set(&values)))
}

/// How the event begins that the phrase with this number declares.
fn start_of(
    alloc: Global,
    names: &Names<'_>,
    known: &Known,
    number: usize,
) -> Result<EventStart, AllocError>
    ensures { IfOk result (λ start. start ≡ events.start_of (seen_names names.now) (seen_known known.now) number) }
{
    let Some(phrase) = names.phrase(number) else {
        return Ok(EventStart::Unlatched);
    };
    match phrase.node {
        Node::Item { common, item } => start_of_item(alloc, names, known, &phrase, common, item),
        _ => Ok(EventStart::Unlatched),
    }
}

/// How the events begin that the phrases with these numbers declare.
fn starts_of(
    alloc: Global,
    names: &Names<'_>,
    known: &Known,
    numbers: &[usize],
) -> Result<Vec<EventStart>, AllocError>
    ensures { IfOk result (λ list. list.items ≡ map (events.start_of (seen_names names.now) (seen_known known.now)) numbers.now) }
{
    let mut list = Vec::new(alloc);
    for number in numbers {
        list.push(start_of(alloc, names, known, *number)?)?;
    }
    Ok(list)
}

/// How the declared events begin, in order (language document, Events).
pub fn event_starts(
    alloc: Global,
    names: &Names<'_>,
    known: &Known,
) -> Result<Vec<EventStart>, AllocError>
    ensures { IfOk result (λ list. list.items ≡ map (events.start_of (seen_names names.now) (seen_known known.now)) (events.declared_events (seen_names names.now))) }
{
    let numbers = declared_events(alloc, names)?;
    starts_of(alloc, names, known, &numbers)
}
