//! What sort of block a phrase is.

ghost use Rattle.std.specs.Prelude.{◌≡◌};
ghost use Rattle.hal_tree.specs.SeenUnits.{seen_head};
ghost use Rattle.hal_phrases.specs.SeenPhrases.{seen_node};
ghost use Rattle.hal_meaning.specs.Bodies as bodies;

use hal_phrases::Node;
use hal_tree::Head;

/// Whether a head is that of a COMPOOL.
#[tactic(auto, using(hal_tree::proofs::MadeUnits::made_program, hal_tree::proofs::MadeUnits::made_compool, hal_tree::proofs::MadeUnits::made_task, hal_tree::proofs::MadeUnits::made_procedure, hal_tree::proofs::MadeUnits::made_function))]
pub(crate) fn is_compool_head(head: &Head) -> bool
    ensures { result ≡ bodies.is_compool_head (seen_head head.now) }
{
    match head {
        Head::Compool { place: _ } => true,
        Head::Program { place: _ } => false,
        Head::Task { place: _ } => false,
        Head::Procedure { .. } => false,
        Head::Function { .. } => false,
    }
}

/// Whether a head is that of a process.
#[tactic(auto, using(hal_tree::proofs::MadeUnits::made_program, hal_tree::proofs::MadeUnits::made_compool, hal_tree::proofs::MadeUnits::made_task, hal_tree::proofs::MadeUnits::made_procedure, hal_tree::proofs::MadeUnits::made_function))]
fn is_process_head(head: &Head) -> bool
    ensures { result ≡ bodies.is_process_head (seen_head head.now) }
{
    match head {
        Head::Program { place: _ } => true,
        Head::Task { place: _ } => true,
        Head::Compool { place: _ } => false,
        Head::Procedure { .. } => false,
        Head::Function { .. } => false,
    }
}

/// Whether a head is that of a block that is called.
#[tactic(auto, using(hal_tree::proofs::MadeUnits::made_program, hal_tree::proofs::MadeUnits::made_compool, hal_tree::proofs::MadeUnits::made_task, hal_tree::proofs::MadeUnits::made_procedure, hal_tree::proofs::MadeUnits::made_function))]
fn is_called_head(head: &Head) -> bool
    ensures { result ≡ bodies.is_called_head (seen_head head.now) }
{
    match head {
        Head::Procedure { .. } => true,
        Head::Function { .. } => true,
        Head::Program { place: _ } => false,
        Head::Task { place: _ } => false,
        Head::Compool { place: _ } => false,
    }
}

/// Whether a phrase is a process: a PROGRAM or a TASK of the set.
pub fn is_process(node: Node<'_>) -> bool
    ensures { result ≡ bodies.is_process (seen_node node.entry) }
{
    match node {
        Node::Unit { head, .. } => is_process_head(head),
        _ => false,
    }
}

/// Whether a phrase is a block that is called: a PROCEDURE or a FUNCTION of the set.
pub(crate) fn is_called(node: Node<'_>) -> bool
    ensures { result ≡ bodies.is_called (seen_node node.entry) }
{
    match node {
        Node::Unit { head, .. } => is_called_head(head),
        _ => false,
    }
}

/// Whether a phrase is a unit of the set.
pub fn is_unit(node: Node<'_>) -> bool
    ensures { result ≡ bodies.is_unit (seen_node node.entry) }
{
    match node {
        Node::Unit { .. } => true,
        _ => false,
    }
}
