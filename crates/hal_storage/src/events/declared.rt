//! The declared events.

ghost use Rattle.std.specs.Prelude.{◌≡◌, IfOk};
ghost use Rattle.hal_phrases.specs.SeenPhrases.{seen_phrase};
ghost use Rattle.hal_names.specs.SeenNames.{seen_names};
ghost use Rattle.hal_meaning.specs.Events as events;

use crate::cells::is_in_unit;
use hal_kinds::is_event_type;
use hal_names::Names;
use hal_phrases::{Node, Phrase};
use hal_scope::type_of;
use std::alloc::{AllocError, Global};

/// Whether a phrase declares an event, and not in a template.
fn is_event(names: &Names<'_>, phrase: &Phrase<'_>) -> bool
    ensures { result ≡ events.is_event (seen_names names.now) (seen_phrase phrase.now).around.home (seen_phrase phrase.now).node }
{
    match phrase.node {
        Node::Item { common, item } => {
            is_event_type(type_of(common, item)) && is_in_unit(names, phrase.around.home)
        }
        _ => false,
    }
}

/// The numbers of the phrases that declare events, in order (language document, Events).
pub fn declared_events(alloc: Global, names: &Names<'_>) -> Result<Vec<usize>, AllocError>
    ensures { IfOk result (λ list. list.items ≡ events.declared_events (seen_names names.now)) }
{
    let mut list = Vec::new(alloc);
    let phrases = names.declarations(alloc)?;
    for phrase in &phrases {
        if is_event(names, phrase) {
            list.push(phrase.number)?;
        }
    }
    Ok(list)
}
