//! The phrases of units and files.

ghost use Rattle.std.specs.Prelude.{◌≡◌, length, map, IfOk, OnOk};
ghost use Rattle.hal_tree.specs.SeenLeaves.{seen_name};
ghost use Rattle.hal_tree.specs.SeenUnits.{seen_element, seen_file, seen_head, seen_preface, seen_returns, seen_template, seen_unit};
ghost use Rattle.hal_phrases.specs.Phrases.{gathered_each};
ghost use Rattle.hal_phrases.specs.Members.{gathered_member, gathered_members};
ghost use Rattle.hal_phrases.specs.GatheredUnits.{around_template, gathered_block, gathered_file, gathered_head, gathered_parameter, gathered_preface, gathered_prefaces, gathered_returns, gathered_template, phrases_of};
ghost use Rattle.hal_phrases.specs.SeenPhrases.{seen_phrase};

use crate::around::Around;
use crate::declarations::{gather_declarations, gather_type};
use crate::node::{Node, Phrase, next_number, opened, push};
use crate::statement_parts::gather_close;
use crate::statements::gather_statement;
use hal_tree::{Element, File, Head, Identifier, Preface, Returns, Template, Unit};
use std::alloc::{AllocError, Global};

/// Adds parameters.
fn gather_parameters<'a>(
    into: &mut Vec<Phrase<'a>>,
    around: Around,
    output: bool,
    names: &'a [Identifier],
) -> Result<(), AllocError>
    ensures { OnOk result (map seen_phrase into.new.items ≡ gathered_each (gathered_parameter around output) (map seen_phrase into.old.items) (map seen_name names.now)) }
{
    for name in names {
        push(into, around, Node::Parameter { name, output })?;
    }
    Ok(())
}

/// Adds the phrases of the type of a FUNCTION's result.
#[tactic(auto, using(hal_tree::proofs::MadeUnits::made_untyped, hal_tree::proofs::MadeUnits::made_typed_returns), unfolding(crate::specs::GatheredUnits::gathered_returns))]
fn gather_returns<'a>(
    into: &mut Vec<Phrase<'a>>,
    around: Around,
    tree: &'a Returns,
) -> Result<(), AllocError>
    ensures { OnOk result (map seen_phrase into.new.items ≡ gathered_returns (map seen_phrase into.old.items) around (seen_returns tree.now)) }
{
    match tree {
        Returns::Untyped => Ok(()),
        Returns::Typed { kind, precision: _ } => gather_type(into, around, kind),
    }
}

/// Adds the parameters of a head, and the phrases of its type.
#[tactic(auto, using(hal_tree::proofs::MadeUnits::made_program, hal_tree::proofs::MadeUnits::made_compool, hal_tree::proofs::MadeUnits::made_task, hal_tree::proofs::MadeUnits::made_procedure, hal_tree::proofs::MadeUnits::made_function), unfolding(crate::specs::GatheredUnits::gathered_head))]
fn gather_head<'a>(
    into: &mut Vec<Phrase<'a>>,
    around: Around,
    tree: &'a Head,
) -> Result<(), AllocError>
    ensures { OnOk result (map seen_phrase into.new.items ≡ gathered_head (map seen_phrase into.old.items) around (seen_head tree.now)) }
{
    match tree {
        Head::Program { place: _ } => Ok(()),
        Head::Compool { place: _ } => Ok(()),
        Head::Task { place: _ } => Ok(()),
        Head::Procedure {
            place: _,
            inputs,
            outputs,
            mode: _,
        } => {
            gather_parameters(into, around, false, inputs)?;
            gather_parameters(into, around, true, outputs)
        }
        Head::Function {
            place: _,
            inputs,
            returns,
            mode: _,
        } => {
            gather_parameters(into, around, false, inputs)?;
            gather_returns(into, around, returns)
        }
    }
}

/// Adds a unit and its phrases.
#[cycle(units)]
#[tactic(auto, using(hal_tree::proofs::MadeUnits::parts_of_unit, crate::proofs::Elements::members_gathered), unfolding(crate::specs::GatheredUnits::gathered_block))]
fn gather_unit<'a>(
    alloc: Global,
    into: &mut Vec<Phrase<'a>>,
    around: Around,
    tree: &'a Unit,
) -> Result<(), AllocError>
    ensures { OnOk result (map seen_phrase into.new.items ≡ gathered_block (map seen_phrase into.old.items) around (seen_unit tree.now)) }
{
    let inner = opened(into, around);
    push(
        into,
        around,
        Node::Unit {
            name: &tree.name,
            head: &tree.head,
            declarations: &tree.declarations,
        },
    )?;
    gather_head(into, inner, &tree.head)?;
    gather_declarations(alloc, into, inner, &tree.declarations)?;
    gather_elements(alloc, into, inner, &tree.elements)?;
    gather_close(into, inner, &tree.close)
}

/// Adds the phrases of statements and units.
#[cycle(units)]
#[tactic(auto, unfolding(crate::specs::Members::gathered_members))]
fn gather_elements<'a>(
    alloc: Global,
    into: &mut Vec<Phrase<'a>>,
    around: Around,
    trees: &'a [Element],
) -> Result<(), AllocError>
    ensures { OnOk result (map seen_phrase into.new.items ≡ gathered_members (map seen_phrase into.old.items) around (map seen_element trees.now)) }
{
    for tree in trees {
        gather_element(alloc, into, around, tree)?;
    }
    Ok(())
}

/// Adds the phrases of a statement or a unit.
#[cycle(units)]
#[tactic(auto, using(hal_tree::proofs::MadeUnits::made_statement_element, hal_tree::proofs::MadeUnits::made_unit_element), unfolding(crate::specs::Members::gathered_member))]
fn gather_element<'a>(
    alloc: Global,
    into: &mut Vec<Phrase<'a>>,
    around: Around,
    tree: &'a Element,
) -> Result<(), AllocError>
    ensures { OnOk result (map seen_phrase into.new.items ≡ gathered_member (map seen_phrase into.old.items) around (seen_element tree.now)) }
{
    match tree {
        Element::Statement(statement) => gather_statement(into, around, statement),
        Element::Unit(unit) => gather_unit(alloc, into, around, unit),
    }
}

/// What stands around the declarations of a template with this head, whose phrase comes next.
#[tactic(auto, using(hal_tree::proofs::MadeUnits::made_program, hal_tree::proofs::MadeUnits::made_compool, hal_tree::proofs::MadeUnits::made_task, hal_tree::proofs::MadeUnits::made_procedure, hal_tree::proofs::MadeUnits::made_function), unfolding(crate::specs::GatheredUnits::around_template))]
fn around_template(into: &Vec<Phrase<'_>>, around: Around, head: &Head) -> Around
    ensures { result ≡ around_template (length (map seen_phrase into.now.items)) around (seen_head head.now) }
{
    let body = opened(into, around);
    match head {
        Head::Compool { place: _ } => around,
        Head::Program { place: _ } => body,
        Head::Task { place: _ } => body,
        Head::Procedure { .. } => body,
        Head::Function { .. } => body,
    }
}

/// Adds a written template and its phrases.
#[tactic(auto, using(hal_tree::proofs::MadeUnits::made_template), unfolding(crate::specs::GatheredUnits::gathered_template))]
fn gather_template<'a>(
    alloc: Global,
    into: &mut Vec<Phrase<'a>>,
    around: Around,
    tree: &'a Template,
) -> Result<(), AllocError>
    ensures { OnOk result (map seen_phrase into.new.items ≡ gathered_template (map seen_phrase into.old.items) around (seen_template tree.now)) }
{
    let body = opened(into, around);
    let declared = around_template(into, around, &tree.head);
    push(
        into,
        around,
        Node::Template {
            name: &tree.name,
            head: &tree.head,
            declarations: &tree.declarations,
        },
    )?;
    gather_head(into, body, &tree.head)?;
    gather_declarations(alloc, into, declared, &tree.declarations)?;
    gather_close(into, body, &tree.close)
}

/// Adds the phrases of what stands before a unit.
#[tactic(auto, using(hal_tree::proofs::MadeUnits::made_include, hal_tree::proofs::MadeUnits::made_template_preface), unfolding(crate::specs::GatheredUnits::gathered_preface))]
fn gather_preface<'a>(
    alloc: Global,
    into: &mut Vec<Phrase<'a>>,
    around: Around,
    tree: &'a Preface,
) -> Result<(), AllocError>
    ensures { OnOk result (map seen_phrase into.new.items ≡ gathered_preface (map seen_phrase into.old.items) around (seen_preface tree.now)) }
{
    match tree {
        Preface::Include { place: _, name } => push(into, around, Node::Include { name }),
        Preface::Template(template) => gather_template(alloc, into, around, template),
    }
}

/// Adds the phrases of all that stands before a unit.
#[tactic(auto, unfolding(crate::specs::GatheredUnits::gathered_prefaces))]
fn gather_prefaces<'a>(
    alloc: Global,
    into: &mut Vec<Phrase<'a>>,
    around: Around,
    trees: &'a [Preface],
) -> Result<(), AllocError>
    ensures { OnOk result (map seen_phrase into.new.items ≡ gathered_prefaces (map seen_phrase into.old.items) around 0 (map seen_preface trees.now)) }
{
    for (index, tree) in trees.iter().enumerate() {
        gather_preface(alloc, into, around.behind(index), tree)?;
    }
    Ok(())
}

/// Adds a file and its phrases.
#[tactic(auto, using(crate::proofs::Elements::file_phrases))]
fn gather_file<'a>(
    alloc: Global,
    into: &mut Vec<Phrase<'a>>,
    file: &'a File,
) -> Result<(), AllocError>
    ensures { OnOk result (map seen_phrase into.new.items ≡ gathered_file (map seen_phrase into.old.items) (seen_file file.now)) }
{
    let inner = Around::file(next_number(into));
    push(
        into,
        inner,
        Node::File {
            prefaces: &file.prefaces,
            name: &file.unit.name,
        },
    )?;
    gather_prefaces(alloc, into, inner, &file.prefaces)?;
    gather_unit(alloc, into, inner.behind(file.prefaces.len()), &file.unit)
}

/// The phrases of a set of files, in order (each declaration, statement, expression, reference and name of which a rule may speak).
#[tactic(auto, unfolding(crate::specs::GatheredUnits::phrases_of))]
pub fn phrases_of<'a>(alloc: Global, files: &'a [File]) -> Result<Vec<Phrase<'a>>, AllocError>
    ensures { IfOk result (λ phrases. map seen_phrase phrases.items ≡ phrases_of (map seen_file files.now)) }
{
    let mut phrases = Vec::new(alloc);
    for file in files {
        gather_file(alloc, &mut phrases, file)?;
    }
    Ok(phrases)
}
