//! The phrases of a unit that are looked up.

ghost use Rattle.std.specs.Prelude.{◌≡◌, IfOk, OnOk, map};
ghost use Rattle.hal_phrases.specs.SeenPhrases.{seen_node, seen_phrase};
ghost use Rattle.hal_names.specs.SeenNames.{seen_names};
ghost use Rattle.hal_meaning.specs.Bodies as bodies;
ghost use Rattle.hal_storage.specs.sets.Marks as marks;

use hal_names::Names;
use hal_phrases::{Node, Phrase};
use std::alloc::{AllocError, Global};

/// Whether a statement is looked up by its phrase: a group, an UPDATE block, ON ERROR with a statement, or a real-time statement.
fn is_mark(node: Node<'_>) -> bool
    ensures { result ≡ bodies.is_mark (seen_node node.entry) }
{
    match node {
        Node::Group { .. } => true,
        Node::TemporaryGroup { .. } => true,
        Node::Update { .. } => true,
        Node::Handler { .. } => true,
        Node::RealTime { .. } => true,
        _ => false,
    }
}

/// Adds the number of a phrase, where it is one of those in a unit.
#[tactic(auto, unfolding(crate::specs::sets::Marks::with_mark))]
fn push_mark(into: &mut Vec<usize>, unit: usize, phrase: &Phrase<'_>) -> Result<(), AllocError>
    ensures { OnOk result (into.new.items ≡ marks.with_mark unit into.old.items (seen_phrase phrase.now)) }
{
    if is_mark(phrase.node) {
        if phrase.around.home == unit {
            into.push(phrase.number)?;
        }
    }
    Ok(())
}

/// Adds the numbers of those among phrases.
#[tactic(auto, unfolding(crate::specs::sets::Marks::with_marks))]
fn push_marks(into: &mut Vec<usize>, unit: usize, phrases: &[Phrase<'_>]) -> Result<(), AllocError>
    ensures { OnOk result (into.new.items ≡ marks.with_marks unit into.old.items (map seen_phrase phrases.now)) }
{
    for phrase in phrases {
        push_mark(into, unit, phrase)?;
    }
    Ok(())
}

/// The numbers of those in a unit, in order.
#[tactic(auto, using(crate::proofs::sets::Listed::marks_of_home))]
pub(crate) fn marks_of(
    alloc: Global,
    names: &Names<'_>,
    unit: usize,
) -> Result<Vec<usize>, AllocError>
    ensures { IfOk result (λ list. list.items ≡ bodies.marks_of (seen_names names.now) unit) }
{
    let mut list = Vec::new(alloc);
    push_marks(&mut list, unit, names.of_home(unit))?;
    Ok(list)
}
