//! The slots of a table of views, and the numbers of the views in each.

ghost use Rattle.std.specs.Prelude.{◌≡◌, ◌<◌, ◌++◌, ◌∷◌, [], length, map, OnOk, OnErr};
ghost use Rattle.hal_gen_expr.specs.ViewSlots as slots;

use hal_code::Base;
use std::alloc::{AllocError, Global};

/// The slot of views that begin there: views with the same base have the same one.
pub(crate) fn slot_of(base: Base) -> usize
    ensures { result ≡ slots.slot_of base }
{
    match base {
        Base::Shared(number) => number as usize * 3,
        Base::Own(number) => number as usize * 3 + 1,
        Base::Through { place, offset: _ } => place as usize * 3 + 2,
        Base::Other { base: _, number: _ } => 0,
    }
}

/// Makes a table reach a slot, where it ends before it.
fn hold(table: &mut Vec<Vec<usize>>, alloc: Global, slot: usize) -> Result<(), AllocError>
    ensures same { slots.AreSame (map slots.numbers_of table.old.items) (map slots.numbers_of table.new.items) }
    ensures reached { OnOk result (slot < length table.new.items) }
{
    while table.len() <= slot {
        table.push(Vec::new(alloc))?;
    }
    Ok(())
}

/// Adds a number to those of a slot that the table reaches.
fn note(table: &mut Vec<Vec<usize>>, slot: usize, number: usize) -> Result<(), AllocError>
    ensures same { OnErr result (slots.AreSame (map slots.numbers_of table.old.items) (map slots.numbers_of table.new.items)) }
    ensures noted { OnOk result (map slots.numbers_of table.new.items ≡ slots.noted (map slots.numbers_of table.old.items) slot number) }
{
    if let Some(numbers) = table.get_mut(slot) {
        numbers.push(number)?;
    }
    Ok(())
}

/// The numbers of a slot; none where the table ends before it.
pub(crate) fn numbers_in(table: &[Vec<usize>], slot: usize) -> &[usize]
    ensures { result.now ≡ slots.numbers_at (map slots.numbers_of table.now) slot }
{
    match table.get(slot) {
        None => &[],
        Some(numbers) => numbers.as_slice(),
    }
}

/// Adds a number to those of a slot.
#[tactic(auto, using(crate::proofs::IndexedViews::noted_same))]
pub(crate) fn add_number(
    table: &mut Vec<Vec<usize>>,
    alloc: Global,
    slot: usize,
    number: usize,
) -> Result<(), AllocError>
    ensures same { OnErr result (slots.AreSame (map slots.numbers_of table.old.items) (map slots.numbers_of table.new.items)) }
    ensures noted { OnOk result (slots.AreNoted slot number (map slots.numbers_of table.old.items) (map slots.numbers_of table.new.items)) }
{
    hold(table, alloc, slot)?;
    note(table, slot, number)
}
