//! Copies of declarations.

ghost use Rattle.std.specs.Prelude.{◌≡◌, map, IfOk};
ghost use Rattle.hal_tree.specs.SeenDeclarations.{seen_attribute, seen_declaration, seen_declared, seen_initial, seen_part, seen_type};

use crate::expressions::{copy_expression, copy_expressions, copy_optional};
use crate::parts::{both, with_next};
use hal_tree::{Attribute, Declaration, Declared, Initial, Part, Type};
use std::alloc::{AllocError, Global};

/// A type like this one, or an error where there is no memory.
#[tactic(auto, using(hal_tree::proofs::MadeDeclarations::made_integer_type, hal_tree::proofs::MadeDeclarations::made_boolean_type, hal_tree::proofs::MadeDeclarations::made_event_type, hal_tree::proofs::MadeDeclarations::made_bit_type, hal_tree::proofs::MadeDeclarations::made_character_type, hal_tree::proofs::MadeDeclarations::made_structure_type))]
pub fn copy_type(alloc: Global, tree: &Type) -> Result<Type, AllocError>
    ensures { IfOk result (λ copied. seen_type copied ≡ seen_type tree.now) }
{
    match tree {
        Type::Integer { place } => Ok(Type::Integer { place: *place }),
        Type::Boolean { place } => Ok(Type::Boolean { place: *place }),
        Type::Event { place } => Ok(Type::Event { place: *place }),
        Type::Bit { place, size } => Ok(Type::Bit {
            place: *place,
            size: copy_expression(alloc, size)?,
        }),
        Type::Character { place, size } => Ok(Type::Character {
            place: *place,
            size: copy_expression(alloc, size)?,
        }),
        Type::Structure {
            place,
            template,
            copies,
        } => Ok(Type::Structure {
            place: *place,
            template: *template,
            copies: copy_optional(alloc, copies)?,
        }),
    }
}

/// An initial value like this one.
#[cycle(copying_initials)]
#[tactic(auto, using(hal_tree::proofs::MadeDeclarations::made_value, hal_tree::proofs::MadeDeclarations::made_literal_times, hal_tree::proofs::MadeDeclarations::made_name_times, hal_tree::proofs::MadeDeclarations::made_list_times))]
fn copy_initial(alloc: Global, tree: &Initial) -> Result<Initial, AllocError>
    ensures { IfOk result (λ copied. seen_initial copied ≡ seen_initial tree.now) }
{
    match tree {
        Initial::Value { value } => Ok(Initial::Value {
            value: copy_expression(alloc, value)?,
        }),
        Initial::LiteralTimes {
            place,
            count,
            sign,
            at,
            literal,
        } => Ok(Initial::LiteralTimes {
            place: *place,
            count: *count,
            sign: *sign,
            at: *at,
            literal: *literal,
        }),
        Initial::NameTimes {
            place,
            count,
            sign,
            name,
        } => Ok(Initial::NameTimes {
            place: *place,
            count: *count,
            sign: *sign,
            name: *name,
        }),
        Initial::ListTimes {
            place,
            count,
            values,
        } => Ok(Initial::ListTimes {
            place: *place,
            count: *count,
            values: copy_initials(alloc, values)?,
        }),
    }
}

/// Initial values like these.
#[cycle(copying_initials)]
fn copy_initials(alloc: Global, trees: &[Initial]) -> Result<Vec<Initial>, AllocError>
    ensures { IfOk result (λ copied. map seen_initial copied.items ≡ map seen_initial trees.now) }
{
    let mut copied = Vec::new(alloc);
    for tree in trees {
        copied = with_next(copied, copy_initial(alloc, tree))?;
    }
    Ok(copied)
}

/// An attribute like this one.
#[tactic(auto, using(hal_tree::proofs::MadeDeclarations::made_dimensions, hal_tree::proofs::MadeDeclarations::made_typed, hal_tree::proofs::MadeDeclarations::made_marked, hal_tree::proofs::MadeDeclarations::made_lock_group, hal_tree::proofs::MadeDeclarations::made_lock_any, hal_tree::proofs::MadeDeclarations::made_initial, hal_tree::proofs::MadeDeclarations::made_constant))]
fn copy_attribute(alloc: Global, tree: &Attribute) -> Result<Attribute, AllocError>
    ensures { IfOk result (λ copied. seen_attribute copied ≡ seen_attribute tree.now) }
{
    match tree {
        Attribute::Dimensions { place, sizes } => Ok(Attribute::Dimensions {
            place: *place,
            sizes: copy_expressions(alloc, sizes)?,
        }),
        Attribute::Typed(kind) => Ok(Attribute::Typed(copy_type(alloc, kind)?)),
        Attribute::Marked { place, mark } => Ok(Attribute::Marked {
            place: *place,
            mark: *mark,
        }),
        Attribute::LockGroup { place, group } => Ok(Attribute::LockGroup {
            place: *place,
            group: copy_expression(alloc, group)?,
        }),
        Attribute::LockAny { place } => Ok(Attribute::LockAny { place: *place }),
        Attribute::Initial { place, values } => Ok(Attribute::Initial {
            place: *place,
            values: copy_initials(alloc, values)?,
        }),
        Attribute::Constant { place, values } => Ok(Attribute::Constant {
            place: *place,
            values: copy_initials(alloc, values)?,
        }),
    }
}

/// Attributes like these, or an error where there is no memory.
pub fn copy_attributes(alloc: Global, trees: &[Attribute]) -> Result<Vec<Attribute>, AllocError>
    ensures { IfOk result (λ copied. map seen_attribute copied.items ≡ map seen_attribute trees.now) }
{
    let mut copied = Vec::new(alloc);
    for tree in trees {
        copied = with_next(copied, copy_attribute(alloc, tree))?;
    }
    Ok(copied)
}

/// A name and attributes like these.
#[tactic(auto, using(hal_tree::proofs::MadeDeclarations::made_declared))]
fn copy_declared(alloc: Global, tree: &Declared) -> Result<Declared, AllocError>
    ensures { IfOk result (λ copied. seen_declared copied ≡ seen_declared tree.now) }
{
    Ok(Declared {
        name: tree.name,
        attributes: copy_attributes(alloc, &tree.attributes)?,
    })
}

/// Names and attributes like these.
fn copy_items(alloc: Global, trees: &[Declared]) -> Result<Vec<Declared>, AllocError>
    ensures { IfOk result (λ copied. map seen_declared copied.items ≡ map seen_declared trees.now) }
{
    let mut copied = Vec::new(alloc);
    for tree in trees {
        copied = with_next(copied, copy_declared(alloc, tree))?;
    }
    Ok(copied)
}

/// A part like this one.
#[tactic(auto, using(hal_tree::proofs::MadeDeclarations::made_part))]
fn copy_part(alloc: Global, tree: &Part) -> Result<Part, AllocError>
    ensures { IfOk result (λ copied. seen_part copied ≡ seen_part tree.now) }
{
    Ok(Part {
        place: tree.place,
        level: tree.level,
        name: tree.name,
        attributes: copy_attributes(alloc, &tree.attributes)?,
    })
}

/// Parts like these.
fn copy_parts(alloc: Global, trees: &[Part]) -> Result<Vec<Part>, AllocError>
    ensures { IfOk result (λ copied. map seen_part copied.items ≡ map seen_part trees.now) }
{
    let mut copied = Vec::new(alloc);
    for tree in trees {
        copied = with_next(copied, copy_part(alloc, tree))?;
    }
    Ok(copied)
}

/// A declaration like this one, or an error where there is no memory.
#[tactic(auto, using(hal_tree::proofs::MadeDeclarations::made_declare, hal_tree::proofs::MadeDeclarations::made_structure))]
pub fn copy_declaration(alloc: Global, tree: &Declaration) -> Result<Declaration, AllocError>
    ensures { IfOk result (λ copied. seen_declaration copied ≡ seen_declaration tree.now) }
{
    match tree {
        Declaration::Declare {
            place,
            common,
            items,
        } => {
            let common = copy_attributes(alloc, common);
            let (common, items) = both(common, copy_items(alloc, items))?;
            Ok(Declaration::Declare {
                place: *place,
                common,
                items,
            })
        }
        Declaration::Structure { place, name, parts } => Ok(Declaration::Structure {
            place: *place,
            name: *name,
            parts: copy_parts(alloc, parts)?,
        }),
    }
}

/// Declarations like these, or an error where there is no memory.
pub fn copy_declarations(
    alloc: Global,
    trees: &[Declaration],
) -> Result<Vec<Declaration>, AllocError>
    ensures { IfOk result (λ copied. map seen_declaration copied.items ≡ map seen_declaration trees.now) }
{
    let mut copied = Vec::new(alloc);
    for tree in trees {
        copied = with_next(copied, copy_declaration(alloc, tree))?;
    }
    Ok(copied)
}
