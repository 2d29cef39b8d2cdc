//! Where ON ERROR and TASK stand.

ghost use Rattle.std.specs.Prelude.{◌≡◌};
ghost use Rattle.hal_tree.specs.SeenUnits.{seen_head};
ghost use Rattle.hal_phrases.specs.SeenPhrases.{seen_node, seen_phrase};
ghost use Rattle.hal_names.specs.SeenNames.{seen_names};
ghost use Rattle.hal_calls.specs.Placed as placed;

use hal_base::Place;
use hal_names::Names;
use hal_phrases::{Node, Phrase};
use hal_reach::is_program_at;
use hal_scope::unless;
use hal_tree::Head;

/// Where a phrase is ON ERROR with a statement.
#[tactic(auto, unfolding(crate::specs::Placed::handling))]
fn handling(node: Node<'_>) -> Option<Place>
    ensures { result ≡ placed.handling (seen_node node.entry) }
{
    match node {
        Node::Handler { place, selector: _ } => Some(place),
        _ => None,
    }
}

/// Where a phrase breaks rule 903 (language document, Calls).
pub(crate) fn nested(phrase: &Phrase<'_>) -> Option<Place>
    ensures { result ≡ placed.nested (seen_phrase phrase.now) }
{
    if phrase.around.direct {
        return None;
    }
    handling(phrase.node)
}

/// Where a head is TASK.
#[tactic(auto, using(hal_tree::proofs::MadeUnits::made_program, hal_tree::proofs::MadeUnits::made_compool, hal_tree::proofs::MadeUnits::made_task, hal_tree::proofs::MadeUnits::made_procedure, hal_tree::proofs::MadeUnits::made_function), unfolding(crate::specs::Placed::task_head))]
fn task_head(head: &Head) -> Option<Place>
    ensures { result ≡ placed.task_head (seen_head head.now) }
{
    match head {
        Head::Task { place } => Some(*place),
        Head::Program { place: _ } => None,
        Head::Compool { place: _ } => None,
        Head::Procedure { .. } => None,
        Head::Function { .. } => None,
    }
}

/// Where a phrase is a TASK, or the template of one.
#[tactic(auto, unfolding(crate::specs::Placed::task_at))]
fn task_at(node: Node<'_>) -> Option<Place>
    ensures { result ≡ placed.task_at (seen_node node.entry) }
{
    match node {
        Node::Unit { head, .. } => task_head(head),
        Node::Template { head, .. } => task_head(head),
        _ => None,
    }
}

/// Where a phrase breaks rule 904 (language document, Calls).
pub(crate) fn misplaced(names: &Names<'_>, phrase: &Phrase<'_>) -> Option<Place>
    ensures { result ≡ placed.misplaced (seen_names names.now) (seen_phrase phrase.now) }
{
    let place = task_at(phrase.node)?;
    unless(is_program_at(names, phrase.around.home), place)
}
