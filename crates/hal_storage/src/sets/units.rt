//! The units of files.

ghost use Rattle.std.specs.Prelude.{◌≡◌, [], ◌++◌, map, IfOk, OnOk};
ghost use Rattle.hal_tree.specs.SeenUnits.{seen_element, seen_file, seen_unit};
ghost use Rattle.hal_meaning.specs.Bodies.{units_from};
ghost use Rattle.hal_storage.specs.sets.SeenBodies.{lent_unit};
ghost use Rattle.hal_storage.specs.sets.Units.{with_member, with_members, with_files};

use hal_tree::{Element, File, Unit};
use std::alloc::{AllocError, Global};

/// Adds a unit and those inside it, in order.
#[cycle(units)]
#[tactic(auto, using(crate::proofs::sets::Listed::unit_listed, crate::proofs::elements::Repeated::one_mapped))]
fn push_unit<'a>(into: &mut Vec<&'a Unit>, tree: &'a Unit) -> Result<(), AllocError>
    ensures { OnOk result (map lent_unit into.new.items ≡ map lent_unit into.old.items ++ units_from (seen_unit tree.now)) }
{
    into.push(tree)?;
    push_elements(into, &tree.elements)
}

/// Adds the units among what stands in a unit.
#[cycle(units)]
#[tactic(auto, unfolding(crate::specs::sets::Units::with_members))]
fn push_elements<'a>(into: &mut Vec<&'a Unit>, trees: &'a [Element]) -> Result<(), AllocError>
    ensures { OnOk result (map lent_unit into.new.items ≡ with_members (map lent_unit into.old.items) (map seen_element trees.now)) }
{
    for tree in trees {
        push_element(into, tree)?;
    }
    Ok(())
}

/// Adds what stands in a unit, where it is a unit, and those inside it.
#[cycle(units)]
#[tactic(auto, using(hal_tree::proofs::MadeUnits::made_statement_element, hal_tree::proofs::MadeUnits::made_unit_element), unfolding(crate::specs::sets::Units::with_member))]
fn push_element<'a>(into: &mut Vec<&'a Unit>, tree: &'a Element) -> Result<(), AllocError>
    ensures { OnOk result (map lent_unit into.new.items ≡ with_member (map lent_unit into.old.items) (seen_element tree.now)) }
{
    match tree {
        Element::Statement(_) => Ok(()),
        Element::Unit(unit) => push_unit(into, unit),
    }
}

/// Adds the units of a file.
#[tactic(auto, using(hal_tree::proofs::MadeUnits::made_file))]
fn push_file<'a>(into: &mut Vec<&'a Unit>, file: &'a File) -> Result<(), AllocError>
    ensures { OnOk result (map lent_unit into.new.items ≡ map lent_unit into.old.items ++ units_from (seen_file file.now).block) }
{
    push_unit(into, &file.unit)
}

/// The units of files and those inside them, in order.
#[tactic(auto, unfolding(crate::specs::sets::Units::with_files))]
pub(crate) fn units_of<'a>(alloc: Global, files: &'a [File]) -> Result<Vec<&'a Unit>, AllocError>
    ensures { IfOk result (λ list. map lent_unit list.items ≡ with_files [] (map seen_file files.now)) }
{
    let mut list = Vec::new(alloc);
    for file in files {
        push_file(&mut list, file)?;
    }
    Ok(list)
}
