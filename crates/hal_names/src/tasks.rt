//! In which units TASKs stand.

ghost use Rattle.std.specs.Prelude.{◌≡◌, [], map, IfOk, OnOk};
ghost use Rattle.hal_phrases.specs.SeenPhrases.{seen_node, seen_phrase};
ghost use Rattle.hal_names.specs.Tasks as tasks;

use hal_phrases::{Node, Phrase};
use hal_tree::Head;
use std::alloc::{AllocError, Global};

/// Whether a phrase is a TASK.
#[tactic(auto, using(hal_tree::proofs::MadeUnits::made_program, hal_tree::proofs::MadeUnits::made_compool, hal_tree::proofs::MadeUnits::made_task, hal_tree::proofs::MadeUnits::made_procedure, hal_tree::proofs::MadeUnits::made_function))]
fn is_task(node: Node<'_>) -> bool
    ensures { result ≡ tasks.is_task (seen_node node.entry) }
{
    match node {
        Node::Unit { head, .. } => match head {
            Head::Task { place: _ } => true,
            Head::Program { place: _ } => false,
            Head::Compool { place: _ } => false,
            Head::Procedure { .. } => false,
            Head::Function { .. } => false,
        },
        _ => false,
    }
}

/// Notes the unit of a phrase, where it is a TASK.
fn note(homes: &mut Vec<usize>, phrase: &Phrase<'_>) -> Result<(), AllocError>
    ensures { OnOk result (homes.new.items ≡ tasks.with_home homes.old.items (seen_phrase phrase.now)) }
{
    if is_task(phrase.node) {
        homes.push(phrase.around.home)?;
    }
    Ok(())
}

/// The units of the TASKs among phrases.
#[tactic(auto, unfolding(crate::specs::Tasks::with_homes))]
pub(crate) fn homes_of(alloc: Global, phrases: &[Phrase<'_>]) -> Result<Vec<usize>, AllocError>
    ensures { IfOk result (λ homes. homes.items ≡ tasks.with_homes [] (map seen_phrase phrases.now)) }
{
    let mut homes = Vec::new(alloc);
    for phrase in phrases {
        note(&mut homes, phrase)?;
    }
    Ok(homes)
}
