//! LOCK data as ASSIGN arguments.

ghost use Rattle.std.specs.Prelude.{◌≡◌, map};
ghost use Rattle.std.specs.Option.{option_map};
ghost use Rattle.hal_tree.specs.SeenLeaves.{seen_name};
ghost use Rattle.hal_tree.specs.SeenExpressions.{seen_reference};
ghost use Rattle.hal_tree.specs.SeenUnits.{seen_head};
ghost use Rattle.hal_phrases.specs.SeenPhrases.{seen_node, seen_phrase};
ghost use Rattle.hal_names.specs.SeenNames.{seen_names};
ghost use Rattle.hal_locks.specs.Passed as passed;

use crate::locked::{has_star, means_locked};
use hal_base::Place;
use hal_names::{Key, Names, Space};
use hal_phrases::{Node, Phrase};
use hal_scope::unless;
use hal_tree::{Head, Identifier, Reference};
use hal_words::Name;

/// Whether what a phrase declares takes LOCK data as an ASSIGN parameter.
#[tactic(auto, unfolding(crate::specs::Passed::is_open))]
fn is_open(node: Node<'_>) -> bool
    ensures { result ≡ passed.is_open (seen_node node.entry) }
{
    match node {
        Node::Item { common, item } => has_star(common, item),
        _ => true,
    }
}

/// The phrase that declares this name in the block with this number.
fn declared_in<'a>(names: &Names<'a>, block: usize, name: &Name) -> Option<Phrase<'a>>
    ensures { option_map seen_phrase result ≡ passed.declared_in (seen_names names.now) block name.now }
{
    let number = names.own(&Key {
        space: Space::Declared,
        owner: block,
        name: *name,
    })?;
    names.phrase(number)
}

/// Whether the parameter of this name of the block with this number takes LOCK data.
fn admits(names: &Names<'_>, block: usize, name: &Name) -> bool
    ensures { result ≡ passed.admits (seen_names names.now) block name.now }
{
    match declared_in(names, block, name) {
        None => true,
        Some(declared) => is_open(declared.node),
    }
}

/// Where an ASSIGN argument in a block may not be passed as the parameter of this name of the block that is called.
#[tactic(auto, using(hal_tree::proofs::MadeExpressions::made_reference), unfolding(crate::specs::Passed::passed))]
fn passed(
    names: &Names<'_>,
    block: usize,
    called: usize,
    parameter: &Identifier,
    reference: &Reference,
) -> Option<Place>
    ensures { result ≡ passed.passed (seen_names names.now) block called (seen_name parameter.now) (seen_reference reference.now) }
{
    unless(
        admits(names, called, &parameter.name) || !means_locked(names, block, &reference.name),
        reference.place,
    )
}

/// The first of ASSIGN arguments that may not be passed.
#[tactic(auto, unfolding(crate::specs::Passed::first_passed))]
fn first_passed(
    names: &Names<'_>,
    block: usize,
    called: usize,
    outputs: &[Identifier],
    references: &[Reference],
) -> Option<Place>
    ensures { result ≡ passed.first_passed (seen_names names.now) block called (map seen_name outputs.now) (map seen_reference references.now) }
{
    let mut left = outputs;
    let mut right = references;
    while let Some((parameter, later)) = left.split_first() {
        let Some((reference, behind)) = right.split_first() else {
            return None;
        };
        let place = passed(names, block, called, parameter, reference);
        if place.is_some() {
            return place;
        }
        left = later;
        right = behind;
    }
    None
}

/// The first of those of a call of the block with this number and head.
#[tactic(auto, using(hal_tree::proofs::MadeUnits::made_program, hal_tree::proofs::MadeUnits::made_compool, hal_tree::proofs::MadeUnits::made_task, hal_tree::proofs::MadeUnits::made_procedure, hal_tree::proofs::MadeUnits::made_function), unfolding(crate::specs::Passed::passed_by_head))]
fn passed_by_head(
    names: &Names<'_>,
    block: usize,
    called: usize,
    references: &[Reference],
    head: &Head,
) -> Option<Place>
    ensures { result ≡ passed.passed_by_head (seen_names names.now) block called (map seen_reference references.now) (seen_head head.now) }
{
    match head {
        Head::Procedure { outputs, .. } => {
            first_passed(names, block, called, outputs, references)
        }
        Head::Program { place: _ } => None,
        Head::Compool { place: _ } => None,
        Head::Task { place: _ } => None,
        Head::Function { .. } => None,
    }
}

/// The first of those of a call of what the phrase with this number declares.
#[tactic(auto, unfolding(crate::specs::Passed::passed_to))]
fn passed_to(
    names: &Names<'_>,
    block: usize,
    called: usize,
    references: &[Reference],
    node: Node<'_>,
) -> Option<Place>
    ensures { result ≡ passed.passed_to (seen_names names.now) block called (map seen_reference references.now) (seen_node node.entry) }
{
    match node {
        Node::Template { head, .. } => passed_by_head(names, block, called, references, head),
        Node::Unit { head, .. } => passed_by_head(names, block, called, references, head),
        _ => None,
    }
}

/// The same by the number alone.
fn passed_at(
    names: &Names<'_>,
    block: usize,
    references: &[Reference],
    called: usize,
) -> Option<Place>
    ensures { result ≡ passed.passed_at (seen_names names.now) block (map seen_reference references.now) called }
{
    let declared = names.phrase(called)?;
    passed_to(names, block, called, references, declared.node)
}

/// Where a phrase breaks rule 806 (language document, Locks).
#[tactic(auto, unfolding(crate::specs::Passed::mispassed))]
pub(crate) fn mispassed(names: &Names<'_>, phrase: &Phrase<'_>) -> Option<Place>
    ensures { result ≡ passed.mispassed (seen_names names.now) (seen_phrase phrase.now).around.block (seen_phrase phrase.now).node }
{
    let block = phrase.around.block;
    match phrase.node {
        Node::Call {
            name,
            receivers,
            ..
        } => passed_at(names, block, receivers, names.means(block, &name.name)?),
        _ => None,
    }
}
