//! The kinds and shapes of the arguments of calls.

ghost use Rattle.std.specs.Prelude.{◌≡◌, map};
ghost use Rattle.std.specs.Option.{option_map};
ghost use Rattle.hal_tree.specs.Rows.{expressions};
ghost use Rattle.hal_tree.specs.SeenExpressions.{seen_expression, seen_reference};
ghost use Rattle.hal_tree.specs.SeenLeaves.{seen_name};
ghost use Rattle.hal_tree.specs.SeenUnits.{seen_head};
ghost use Rattle.hal_phrases.specs.SeenPhrases.{seen_node, seen_phrase};
ghost use Rattle.hal_names.specs.SeenNames.{seen_names};
ghost use Rattle.hal_constants.specs.SeenKnown.{seen_known};
ghost use Rattle.hal_shapes.specs.Arguments as arguments;

use crate::arguments::{input_fits, output_fits};
use hal_base::Place;
use hal_constants::Known;
use hal_names::{Key, Names, Space};
use hal_phrases::{Node, Phrase};
use hal_scope::unless;
use hal_tree::{Expr, Head, Identifier, Reference};

/// The phrase that declares a parameter of the block with this number.
#[tactic(auto, unfolding(crate::specs::Arguments::parameter_of))]
fn parameter_of<'a>(names: &Names<'a>, block: usize, parameter: &Identifier) -> Option<Phrase<'a>>
    ensures { option_map seen_phrase result ≡ arguments.parameter_of (seen_names names.now) block (seen_name parameter.now) }
{
    let number = names.own(&Key {
        space: Space::Declared,
        owner: block,
        name: parameter.name,
    })?;
    names.phrase(number)
}

/// Whether an input argument fits the parameter of this name.
fn input_named(
    names: &Names<'_>,
    known: &Known,
    phrase: &Phrase<'_>,
    block: usize,
    parameter: &Identifier,
    tree: &Expr,
) -> bool
    ensures { result ≡ arguments.input_named (seen_names names.now) (seen_known known.now) (seen_phrase phrase.now) block (seen_name parameter.now) (seen_expression tree.now) }
{
    match parameter_of(names, block, parameter) {
        None => true,
        Some(parameter) => input_fits(names, known, phrase, &parameter, tree),
    }
}

/// Whether an ASSIGN argument fits the parameter of this name.
fn output_named(
    names: &Names<'_>,
    known: &Known,
    phrase: &Phrase<'_>,
    block: usize,
    parameter: &Identifier,
    reference: &Reference,
) -> bool
    ensures { result ≡ arguments.output_named (seen_names names.now) (seen_known known.now) (seen_phrase phrase.now) block (seen_name parameter.now) (seen_reference reference.now) }
{
    match parameter_of(names, block, parameter) {
        None => true,
        Some(parameter) => output_fits(names, known, phrase, &parameter, reference),
    }
}

/// Whether input arguments fit parameters; where there are more of one than of the other the number is wrong.
#[tactic(auto, unfolding(crate::specs::Arguments::inputs_fit, hal_tree::specs::Rows::expressions))]
fn inputs_fit(
    names: &Names<'_>,
    known: &Known,
    phrase: &Phrase<'_>,
    block: usize,
    inputs: &[Identifier],
    trees: &[Expr],
) -> bool
    ensures { result ≡ arguments.inputs_fit (seen_names names.now) (seen_known known.now) (seen_phrase phrase.now) block (map seen_name inputs.now) (expressions (map seen_expression trees.now)) }
{
    let mut left = inputs;
    let mut right = trees;
    while let Some((parameter, later)) = left.split_first() {
        let Some((tree, behind)) = right.split_first() else {
            return true;
        };
        if !input_named(names, known, phrase, block, parameter, tree) {
            return false;
        }
        left = later;
        right = behind;
    }
    true
}

/// The same of ASSIGN arguments.
#[tactic(auto, unfolding(crate::specs::Arguments::outputs_fit))]
fn outputs_fit(
    names: &Names<'_>,
    known: &Known,
    phrase: &Phrase<'_>,
    block: usize,
    outputs: &[Identifier],
    references: &[Reference],
) -> bool
    ensures { result ≡ arguments.outputs_fit (seen_names names.now) (seen_known known.now) (seen_phrase phrase.now) block (map seen_name outputs.now) (map seen_reference references.now) }
{
    let mut left = outputs;
    let mut right = references;
    while let Some((parameter, later)) = left.split_first() {
        let Some((reference, behind)) = right.split_first() else {
            return true;
        };
        if !output_named(names, known, phrase, block, parameter, reference) {
            return false;
        }
        left = later;
        right = behind;
    }
    true
}

/// The arguments of the call form of the block with this number.
#[tactic(auto, using(hal_tree::proofs::MadeUnits::made_program, hal_tree::proofs::MadeUnits::made_compool, hal_tree::proofs::MadeUnits::made_task, hal_tree::proofs::MadeUnits::made_procedure, hal_tree::proofs::MadeUnits::made_function), unfolding(crate::specs::Arguments::form_fits))]
fn form_fits(
    names: &Names<'_>,
    known: &Known,
    phrase: &Phrase<'_>,
    block: usize,
    trees: &[Expr],
    head: &Head,
) -> bool
    ensures { result ≡ arguments.form_fits (seen_names names.now) (seen_known known.now) (seen_phrase phrase.now) block (expressions (map seen_expression trees.now)) (seen_head head.now) }
{
    match head {
        Head::Function { inputs, .. } => inputs_fit(names, known, phrase, block, inputs, trees),
        Head::Program { place: _ } => true,
        Head::Task { place: _ } => true,
        Head::Compool { place: _ } => true,
        Head::Procedure { .. } => true,
    }
}

/// The arguments of CALL of the block with this number.
#[tactic(auto, using(hal_tree::proofs::MadeUnits::made_program, hal_tree::proofs::MadeUnits::made_compool, hal_tree::proofs::MadeUnits::made_task, hal_tree::proofs::MadeUnits::made_procedure, hal_tree::proofs::MadeUnits::made_function), unfolding(crate::specs::Arguments::call_fits))]
fn call_fits(
    names: &Names<'_>,
    known: &Known,
    phrase: &Phrase<'_>,
    block: usize,
    trees: &[Expr],
    references: &[Reference],
    head: &Head,
) -> bool
    ensures { result ≡ arguments.call_fits (seen_names names.now) (seen_known known.now) (seen_phrase phrase.now) block (expressions (map seen_expression trees.now)) (map seen_reference references.now) (seen_head head.now) }
{
    match head {
        Head::Procedure {
            inputs,
            outputs,
            ..
        } => {
            inputs_fit(names, known, phrase, block, inputs, trees)
                && outputs_fit(names, known, phrase, block, outputs, references)
        }
        Head::Program { place: _ } => true,
        Head::Task { place: _ } => true,
        Head::Compool { place: _ } => true,
        Head::Function { .. } => true,
    }
}

/// The head of a block.
#[tactic(auto, unfolding(crate::specs::Arguments::head_of))]
fn head_of<'a>(node: Node<'a>) -> Option<&'a Head>
    ensures { option_map (λ head. seen_head head.now) result ≡ arguments.head_of (seen_node node.entry) }
{
    match node {
        Node::Template { head, .. } => Some(head),
        Node::Unit { head, .. } => Some(head),
        _ => None,
    }
}

/// The head of the block with this number.
fn head_at<'a>(names: &Names<'a>, number: usize) -> Option<&'a Head>
    ensures { option_map (λ head. seen_head head.now) result ≡ arguments.head_at (seen_names names.now) number }
{
    let phrase = names.phrase(number)?;
    head_of(phrase.node)
}

/// Where the arguments of a call form don't fit.
fn form_fault(
    names: &Names<'_>,
    known: &Known,
    phrase: &Phrase<'_>,
    place: Place,
    trees: &[Expr],
    block: usize,
) -> Option<Place>
    ensures { result ≡ arguments.form_fault (seen_names names.now) (seen_known known.now) (seen_phrase phrase.now) place (expressions (map seen_expression trees.now)) block }
{
    let head = head_at(names, block)?;
    unless(form_fits(names, known, phrase, block, trees, head), place)
}

/// Where the arguments of CALL don't fit.
fn call_fault(
    names: &Names<'_>,
    known: &Known,
    phrase: &Phrase<'_>,
    place: Place,
    trees: &[Expr],
    references: &[Reference],
    block: usize,
) -> Option<Place>
    ensures { result ≡ arguments.call_fault (seen_names names.now) (seen_known known.now) (seen_phrase phrase.now) place (expressions (map seen_expression trees.now)) (map seen_reference references.now) block }
{
    let head = head_at(names, block)?;
    unless(
        call_fits(names, known, phrase, block, trees, references, head),
        place,
    )
}

/// Where a phrase breaks rule 705 by the kind or the shape of an argument (language document, Kinds).
#[tactic(auto, unfolding(crate::specs::Arguments::misshaped))]
pub fn misshaped(names: &Names<'_>, known: &Known, phrase: &Phrase<'_>) -> Option<Place>
    ensures { result ≡ arguments.misshaped (seen_names names.now) (seen_known known.now) (seen_phrase phrase.now) (seen_phrase phrase.now).node }
{
    match phrase.node {
        Node::CallForm {
            place,
            name,
            arguments,
        } => {
            let block = names.means(phrase.around.block, name)?;
            form_fault(names, known, phrase, *place, arguments, block)
        }
        Node::Call {
            name,
            arguments,
            receivers,
        } => {
            let block = names.means(phrase.around.block, &name.name)?;
            call_fault(
                names, known, phrase, name.place, arguments, receivers, block,
            )
        }
        _ => None,
    }
}
