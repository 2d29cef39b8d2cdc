//! The truth of event expressions.

ghost use Rattle.std.specs.Prelude.{◌≡◌, Bool, ℕ, List, [], reverse, slice_index_or, slice_set, IfOk, OnOk, IsSome, IfSome, IfNone};
ghost use Rattle.hal_values.specs.Tables.{process_count};
ghost use Rattle.exec_model.specs.Expressions.{item_applied, items_applied, items_truth};
ghost use Rattle.exec_model.specs.Moments.{event_in, event_set};

use crate::row::Row;
use crate::rows::row_at;
use hal_values::{Item, Tables};
use std::alloc::{AllocError, Global};

/// The value of an event: the first ones are the names of processes, TRUE while these are active.
pub(crate) fn event_value(tables: &Tables, rows: &[Row], events: &[bool], event: u16) -> bool
    ensures { result ≡ event_in tables.now rows.now events.now event }
{
    let number = usize::from(event);
    let count = tables.processes.as_slice().len();
    if number < count {
        return match rows.get(number) {
            Some(row) => row.is_active(),
            None => false,
        };
    }
    match events.get(number - count) {
        Some(value) => *value,
        None => false,
    }
}

/// Gives a declared event this value, if it is one.
pub(crate) fn set_event(tables: &Tables, events: &mut [bool], event: u16, to: bool)
    ensures { events.new ≡ event_set tables.now event to events.old }
{
    let number = usize::from(event);
    let count = tables.processes.as_slice().len();
    if number >= count && number - count < events.len() {
        events[number - count] = to;
    }
}

fn negate(operands: &mut Vec<bool>) -> Result<(), AllocError>
    ensures { OnOk result ((value : ℕ → Bool) → reverse operands.new.items ≡ item_applied value Item.Not (reverse operands.old.items)) }
{
    if let Some(a) = operands.pop() {
        operands.push(!a)?;
    }
    Ok(())
}

fn join_both(operands: &mut Vec<bool>) -> Result<(), AllocError>
    ensures { OnOk result ((value : ℕ → Bool) → reverse operands.new.items ≡ item_applied value Item.And (reverse operands.old.items)) }
{
    match (operands.pop(), operands.pop()) {
        (None, _) => {}
        (Some(b), None) => operands.push(b)?,
        (Some(b), Some(a)) => operands.push(a && b)?,
    }
    Ok(())
}

fn join_either(operands: &mut Vec<bool>) -> Result<(), AllocError>
    ensures { OnOk result ((value : ℕ → Bool) → reverse operands.new.items ≡ item_applied value Item.Or (reverse operands.old.items)) }
{
    match (operands.pop(), operands.pop()) {
        (None, _) => {}
        (Some(b), None) => operands.push(b)?,
        (Some(b), Some(a)) => operands.push(a || b)?,
    }
    Ok(())
}

fn apply_item(
    tables: &Tables,
    rows: &[Row],
    events: &[bool],
    item: Item,
    operands: &mut Vec<bool>,
) -> Result<(), AllocError>
    ensures { OnOk result (reverse operands.new.items ≡ item_applied (event_in tables.now rows.now events.now) item (reverse operands.old.items)) }
{
    match item {
        Item::Event(event) => {
            operands.push(event_value(tables, rows, events, event))?;
            Ok(())
        }
        Item::Not => {
            negate(operands)?;
            Ok(())
        }
        Item::And => {
            join_both(operands)?;
            Ok(())
        }
        Item::Or => {
            join_either(operands)?;
            Ok(())
        }
    }
}

/// The value of items, which stand with their operands first.
fn value_of_items(
    alloc: Global,
    tables: &Tables,
    rows: &[Row],
    events: &[bool],
    items: &[Item],
) -> Result<bool, AllocError>
    ensures { IfOk result (λ value. value ≡ items_truth (event_in tables.now rows.now events.now) items.now) }
{
    let mut operands = Vec::new(alloc);
    for item in items {
        apply_item(tables, rows, events, *item, &mut operands)?;
    }
    Ok(operands.pop().unwrap_or(false))
}

/// Whether the event expression of this number is TRUE.
pub(crate) fn is_true(
    alloc: Global,
    tables: &Tables,
    rows: &[Row],
    events: &[bool],
    expression: u32,
) -> Result<bool, AllocError>
    ensures { IfOk result (λ value. value ≡ items_truth (event_in tables.now rows.now events.now) (slice_index_or tables.now.expressions expression [])) }
{
    match tables.expressions.as_slice().get(expression as usize) {
        Some(items) => value_of_items(alloc, tables, rows, events, items.as_slice()),
        None => Ok(false),
    }
}
