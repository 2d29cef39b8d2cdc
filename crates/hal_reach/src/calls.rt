//! The blocks that phrases call.

ghost use Rattle.std.specs.Prelude.{◌≡◌, IfOk};
ghost use Rattle.hal_tree.specs.SeenExpressions.{seen_reference};
ghost use Rattle.hal_phrases.specs.SeenPhrases.{seen_phrase};
ghost use Rattle.hal_names.specs.SeenNames.{seen_names};
ghost use Rattle.hal_meaning.specs.Bodies as bodies;
ghost use Rattle.hal_reach.specs.Calls as calls;

use crate::call::Call;
use crate::meanings::meant;
use crate::sorts::is_called;
use hal_names::Names;
use hal_phrases::{Node, Phrase};
use hal_tree::Reference;
use hal_words::Name;
use std::alloc::{AllocError, Global};

/// The block that the phrase with this number is, where it is one that is called.
fn called_block(names: &Names<'_>, number: Option<usize>) -> Option<usize>
    ensures { result ≡ bodies.called_block (seen_names names.now) number }
{
    let phrase = names.phrase(number?)?;
    if is_called(phrase.node) {
        Some(phrase.number)
    } else {
        None
    }
}

/// The block that this name calls in a block.
fn called_by_name(names: &Names<'_>, block: usize, name: &Name) -> Option<usize>
    ensures { result ≡ calls.called_by_name (seen_names names.now) block name.now }
{
    called_block(names, meant(names, block, name))
}

/// The block that a reference's name calls.
#[tactic(auto, using(hal_tree::proofs::MadeExpressions::made_reference))]
fn called_by_reference(names: &Names<'_>, block: usize, reference: &Reference) -> Option<usize>
    ensures { result ≡ calls.called_by_reference (seen_names names.now) block (seen_reference reference.now) }
{
    called_by_name(names, block, &reference.name)
}

/// The number of the block that a phrase calls, where it calls one: by CALL, by a call form, or by a FUNCTION's name alone, as the name behind `$` is (language document, Units).
#[tactic(auto, using(crate::proofs::Callees::by_reference))]
pub fn callee(names: &Names<'_>, phrase: &Phrase<'_>) -> Option<usize>
    ensures { result ≡ bodies.callee (seen_names names.now) (seen_phrase phrase.now) }
{
    let block = phrase.around.block;
    match phrase.node {
        Node::Call { name, .. } => called_by_name(names, block, &name.name),
        Node::CallForm { name, .. } => called_by_name(names, block, name),
        Node::Reference { role: _, reference } => called_by_reference(names, block, reference),
        Node::SubscriptName { name } => called_by_name(names, block, &name.name),
        _ => None,
    }
}

/// The calls of a set of files, in the order in which they stand.
pub(crate) fn calls_of(alloc: Global, names: &Names<'_>) -> Result<Vec<Call>, AllocError>
    ensures { IfOk result (λ list. list.items ≡ calls.calls_of (seen_names names.now)) }
{
    let mut list = Vec::new(alloc);
    let phrases = names.phrases();
    for phrase in phrases {
        if let Some(to) = callee(names, phrase) {
            let from = phrase.around.home;
            list.push(Call { from, to })?;
        }
    }
    Ok(list)
}
