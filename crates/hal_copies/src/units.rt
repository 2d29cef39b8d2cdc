//! Copies of units and files.

ghost use Rattle.std.specs.Prelude.{◌≡◌, map, IfOk};
ghost use Rattle.hal_tree.specs.SeenUnits.{seen_element, seen_file, seen_head, seen_preface, seen_returns, seen_template, seen_unit};

use crate::declarations::{copy_declarations, copy_type};
use crate::expressions::copy_names;
use crate::parts::{both, with_next};
use crate::statements::copy_statement;
use hal_tree::{Element, File, Head, Preface, Returns, Template, Unit};
use std::alloc::{AllocError, Global};

/// The type of a result like this one.
#[tactic(auto, using(hal_tree::proofs::MadeUnits::made_untyped, hal_tree::proofs::MadeUnits::made_typed_returns))]
fn copy_returns(alloc: Global, tree: &Returns) -> Result<Returns, AllocError>
    ensures { IfOk result (λ copied. seen_returns copied ≡ seen_returns tree.now) }
{
    match tree {
        Returns::Untyped => Ok(Returns::Untyped),
        Returns::Typed { kind, precision } => Ok(Returns::Typed {
            kind: copy_type(alloc, kind)?,
            precision: *precision,
        }),
    }
}

/// A head like this one, or an error where there is no memory.
#[tactic(auto, using(hal_tree::proofs::MadeUnits::made_program, hal_tree::proofs::MadeUnits::made_compool, hal_tree::proofs::MadeUnits::made_task, hal_tree::proofs::MadeUnits::made_procedure, hal_tree::proofs::MadeUnits::made_function))]
pub fn copy_head(alloc: Global, tree: &Head) -> Result<Head, AllocError>
    ensures { IfOk result (λ copied. seen_head copied ≡ seen_head tree.now) }
{
    match tree {
        Head::Program { place } => Ok(Head::Program { place: *place }),
        Head::Compool { place } => Ok(Head::Compool { place: *place }),
        Head::Task { place } => Ok(Head::Task { place: *place }),
        Head::Procedure {
            place,
            inputs,
            outputs,
            mode,
        } => {
            let inputs = copy_names(alloc, inputs);
            let (inputs, outputs) = both(inputs, copy_names(alloc, outputs))?;
            Ok(Head::Procedure {
                place: *place,
                inputs,
                outputs,
                mode: *mode,
            })
        }
        Head::Function {
            place,
            inputs,
            returns,
            mode,
        } => {
            let inputs = copy_names(alloc, inputs);
            let (inputs, returns) = both(inputs, copy_returns(alloc, returns))?;
            Ok(Head::Function {
                place: *place,
                inputs,
                returns,
                mode: *mode,
            })
        }
    }
}

/// A unit like this one, or an error where there is no memory.
#[cycle(copying_units)]
#[tactic(auto, using(hal_tree::proofs::MadeUnits::made_unit, hal_tree::proofs::MadeUnits::parts_of_unit))]
pub fn copy_unit(alloc: Global, tree: &Unit) -> Result<Unit, AllocError>
    ensures { IfOk result (λ copied. seen_unit copied ≡ seen_unit tree.now) }
{
    let head = copy_head(alloc, &tree.head);
    let front = both(head, copy_declarations(alloc, &tree.declarations));
    let ((head, declarations), elements) = both(front, copy_elements(alloc, &tree.elements))?;
    Ok(Unit {
        name: tree.name,
        head,
        declarations,
        elements,
        close: tree.close,
    })
}

/// Statements and units like these.
#[cycle(copying_units)]
fn copy_elements(alloc: Global, trees: &[Element]) -> Result<Vec<Element>, AllocError>
    ensures { IfOk result (λ copied. map seen_element copied.items ≡ map seen_element trees.now) }
{
    let mut copied = Vec::new(alloc);
    for tree in trees {
        copied = with_next(copied, copy_element(alloc, tree))?;
    }
    Ok(copied)
}

/// A statement or a unit like this one.
#[cycle(copying_units)]
#[tactic(auto, using(hal_tree::proofs::MadeUnits::made_statement_element, hal_tree::proofs::MadeUnits::made_unit_element))]
fn copy_element(alloc: Global, tree: &Element) -> Result<Element, AllocError>
    ensures { IfOk result (λ copied. seen_element copied ≡ seen_element tree.now) }
{
    match tree {
        Element::Statement(statement) => Ok(Element::Statement(copy_statement(alloc, statement)?)),
        Element::Unit(unit) => Ok(Element::Unit(copy_unit(alloc, unit)?)),
    }
}

/// A template like this one, or an error where there is no memory.
#[tactic(auto, using(hal_tree::proofs::MadeUnits::made_template))]
pub fn copy_template(alloc: Global, tree: &Template) -> Result<Template, AllocError>
    ensures { IfOk result (λ copied. seen_template copied ≡ seen_template tree.now) }
{
    let head = copy_head(alloc, &tree.head);
    let (head, declarations) = both(head, copy_declarations(alloc, &tree.declarations))?;
    Ok(Template {
        name: tree.name,
        head,
        declarations,
        close: tree.close,
    })
}

/// What stands before a file's unit, like this.
#[tactic(auto, using(hal_tree::proofs::MadeUnits::made_include, hal_tree::proofs::MadeUnits::made_template_preface))]
fn copy_preface(alloc: Global, tree: &Preface) -> Result<Preface, AllocError>
    ensures { IfOk result (λ copied. seen_preface copied ≡ seen_preface tree.now) }
{
    match tree {
        Preface::Include { place, name } => Ok(Preface::Include {
            place: *place,
            name: *name,
        }),
        Preface::Template(template) => Ok(Preface::Template(copy_template(alloc, template)?)),
    }
}

/// Prefaces like these.
fn copy_prefaces(alloc: Global, trees: &[Preface]) -> Result<Vec<Preface>, AllocError>
    ensures { IfOk result (λ copied. map seen_preface copied.items ≡ map seen_preface trees.now) }
{
    let mut copied = Vec::new(alloc);
    for tree in trees {
        copied = with_next(copied, copy_preface(alloc, tree))?;
    }
    Ok(copied)
}

/// A file like this one, or an error where there is no memory.
#[tactic(auto, using(hal_tree::proofs::MadeUnits::made_file))]
pub fn copy_file(alloc: Global, file: &File) -> Result<File, AllocError>
    ensures { IfOk result (λ copied. seen_file copied ≡ seen_file file.now) }
{
    let prefaces = copy_prefaces(alloc, &file.prefaces);
    let (prefaces, unit) = both(prefaces, copy_unit(alloc, &file.unit))?;
    Ok(File { prefaces, unit })
}
