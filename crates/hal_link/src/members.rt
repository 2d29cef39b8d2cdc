//! The code of what stands in a unit.

ghost use Rattle.std.specs.Prelude.{◌≡◌, IfOk, map};
ghost use Rattle.hal_tree.specs.Rows.{elements};
ghost use Rattle.hal_tree.specs.SeenUnits.{seen_element};
ghost use Rattle.hal_meaning.specs.Bodies.{statements_of};
ghost use Rattle.hal_gen_expr.specs.Emits.{Emits};
ghost use Rattle.hal_gen_expr.specs.SeenSites.{seen_site, seen_numbering, IsSite};
ghost use Rattle.hal_gen.specs.SeenExits.{seen_exits};
ghost use Rattle.hal_gen.specs.SeenLocks.{AreGroups};
ghost use Rattle.hal_gen.specs.Sizes as sizes;
ghost use Rattle.hal_gen.specs.StatementCode as codes;
ghost use Rattle.hal_link.specs.Members as members;

use hal_code::Instr;
use hal_gen::{Exits, Locks, after_statement, emit_direct, statement_size};
use hal_gen_expr::{Site, Uncoded};
use hal_tree::Element;
use std::alloc::AllocError;

/// How many instructions stand for what stands in a unit, where the next mark has this number.
#[tactic(auto, using(hal_tree::proofs::MadeUnits::made_statement_element, hal_tree::proofs::MadeUnits::made_unit_element))]
fn element_size(element: &Element, site: &Site<'_>, mark: usize) -> Result<usize, AllocError>
    requires site { IsSite site.now }
    ensures { IfOk result (λ size. size ≡ members.member_size (seen_numbering site.now) (seen_site site.now) mark (seen_element element.now)) }
{
    match element {
        Element::Statement(statement) => statement_size(statement, site, mark),
        Element::Unit(_) => Ok(0),
    }
}

/// The number of the next mark behind it.
#[tactic(auto, using(hal_tree::proofs::MadeUnits::made_statement_element, hal_tree::proofs::MadeUnits::made_unit_element))]
fn after_element(element: &Element, mark: usize) -> Result<usize, AllocError>
    ensures { IfOk result (λ next. next ≡ members.after_member mark (seen_element element.now)) }
{
    match element {
        Element::Statement(statement) => after_statement(statement, mark),
        Element::Unit(_) => Ok(mark),
    }
}

/// How many stand for all that stands in it.
#[tactic(auto, unfolding(crate::specs::Members::with_members))]
fn size_of_all(list: &[Element], site: &Site<'_>) -> Result<usize, AllocError>
    requires site { IsSite site.now }
    ensures { IfOk result (λ size. size ≡ members.with_members (seen_numbering site.now) (seen_site site.now) 0 0 (map seen_element list.now)) }
{
    let mut size: usize = 0;
    let mut mark: usize = 0;
    for element in list {
        let Some(sum) = size.checked_add(element_size(element, site, mark)?) else {
            return Err(AllocError);
        };
        size = sum;
        mark = after_element(element, mark)?;
    }
    Ok(size)
}

/// How many stand for the statements of a unit.
#[tactic(auto, using(crate::proofs::Coded::members_sized))]
pub(crate) fn elements_size(list: &[Element], site: &Site<'_>) -> Result<usize, AllocError>
    requires site { IsSite site.now }
    ensures { IfOk result (λ size. size ≡ sizes.statements_size (seen_numbering site.now) (seen_site site.now) 0 (statements_of (elements (map seen_element list.now)))) }
{
    size_of_all(list, site)
}

/// Adds the code of what stands in a unit, where the next mark has this number.
#[tactic(auto, using(hal_tree::proofs::MadeUnits::made_statement_element, hal_tree::proofs::MadeUnits::made_unit_element))]
fn emit_element<'a>(
    element: &'a Element,
    code: &mut Vec<Instr>,
    site: &Site<'_>,
    locks: &Locks<'_>,
    exits: &Exits<'a>,
    mark: usize,
) -> Result<(), Uncoded>
    requires site { IsSite site.now }
    requires locks { AreGroups site.now locks.now }
    ensures { Emits (members.member_code (seen_numbering site.now) (seen_site site.now) code.old.items (seen_exits exits.now) mark (seen_element element.now)) result code.new.items }
{
    match element {
        Element::Statement(statement) => emit_direct(statement, code, site, locks, exits, mark),
        Element::Unit(_) => Ok(()),
    }
}

/// Adds the code of all that stands in a unit.
#[tactic(auto, unfolding(crate::specs::Members::members_code))]
fn emit_all<'a>(
    list: &'a [Element],
    code: &mut Vec<Instr>,
    site: &Site<'_>,
    locks: &Locks<'_>,
    exits: &Exits<'a>,
) -> Result<(), Uncoded>
    requires site { IsSite site.now }
    requires locks { AreGroups site.now locks.now }
    ensures { Emits (members.members_code (seen_numbering site.now) (seen_site site.now) code.old.items (seen_exits exits.now) 0 (map seen_element list.now)) result code.new.items }
{
    let mut mark: usize = 0;
    for element in list {
        emit_element(element, code, site, locks, exits, mark)?;
        mark = after_element(element, mark)?;
    }
    Ok(())
}

/// Adds the code of the statements of a unit.
#[tactic(auto, using(crate::proofs::Coded::members_coded))]
pub(crate) fn emit_elements<'a>(
    list: &'a [Element],
    code: &mut Vec<Instr>,
    site: &Site<'_>,
    locks: &Locks<'_>,
    exits: &Exits<'a>,
) -> Result<(), Uncoded>
    requires site { IsSite site.now }
    requires locks { AreGroups site.now locks.now }
    ensures { Emits (codes.block_code (seen_numbering site.now) (seen_site site.now) code.old.items (seen_exits exits.now) 0 (statements_of (elements (map seen_element list.now)))) result code.new.items }
{
    emit_all(list, code, site, locks, exits)
}
