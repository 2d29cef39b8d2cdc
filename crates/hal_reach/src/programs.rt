//! Whether phrases are PROGRAMs.

ghost use Rattle.std.specs.Prelude.{◌≡◌};
ghost use Rattle.hal_phrases.specs.SeenPhrases.{seen_node};
ghost use Rattle.hal_names.specs.SeenNames.{seen_names};
ghost use Rattle.hal_meaning.specs.Sets as sets;

use hal_names::Names;
use hal_phrases::Node;
use hal_tree::Head;

/// Whether a phrase is a PROGRAM.
#[tactic(auto, using(hal_tree::proofs::MadeUnits::made_program, hal_tree::proofs::MadeUnits::made_compool, hal_tree::proofs::MadeUnits::made_task, hal_tree::proofs::MadeUnits::made_procedure, hal_tree::proofs::MadeUnits::made_function))]
pub fn is_program(node: Node<'_>) -> bool
    ensures { result ≡ sets.is_program (seen_node node.entry) }
{
    match node {
        Node::Unit { head, .. } => match head {
            Head::Program { place: _ } => true,
            Head::Task { place: _ } => false,
            Head::Compool { place: _ } => false,
            Head::Procedure { .. } => false,
            Head::Function { .. } => false,
        },
        _ => false,
    }
}

/// Whether the phrase with this number is one.
pub fn is_program_at(names: &Names<'_>, number: usize) -> bool
    ensures { result ≡ sets.is_program_at (seen_names names.now) number }
{
    match names.phrase(number) {
        None => false,
        Some(phrase) => is_program(phrase.node),
    }
}
