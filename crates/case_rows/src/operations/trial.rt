//! Rows, each written anew from what the operation gives for its operands. One that can't be read, or whose operands aren't taken, isn't kept.

use crate::operations::operands::{has_components, is_storable, takes, takes_both, takes_part};
use crate::operations::way::Way;
use crate::operations::{reader, writer};
use hal_operations::{
    Op1, Op2, apply1, apply2, fit, mend_fit, mend_patch, mend_pick, mend1, mend2, patch, pick,
    place_count,
};
use hal_values::{ErrNo, Value};
use row_files::Rows;
use std::alloc::{AllocError, Global};

/// What a row separates its fields with.
const BAR: &str = " | ";

/// Rows of values.
#[derive(Clone, Copy)]
pub(crate) struct ValueRows;

impl Rows for ValueRows {
    fn written(&self, alloc: Global, way: &str, row: &str) -> Result<String, AllocError> {
        match Way::named(way) {
            None => String::from_str(alloc, "a way in which nothing is tried"),
            Some(Way::One(op)) => of_one(alloc, op, row),
            Some(Way::Two(op)) => of_two(alloc, op, row),
            Some(Way::Fit) => of_store(alloc, row),
            Some(Way::Pick) => of_pick(alloc, row),
            Some(Way::Patch) => of_patch(alloc, row),
            Some(Way::Places) => of_places(alloc, row),
        }
    }
}

/// The outcome, and the value after an ignored error where that is another one. Where no error is raised it is
/// the outcome, and a row with both fails.
fn ended(
    alloc: Global,
    outcome: &Result<Value, ErrNo>,
    mended: &Value,
) -> Result<String, AllocError> {
    let outcome = writer::outcome(alloc, outcome)?;
    let mended = writer::value(alloc, mended)?;
    if outcome.as_str() == mended.as_str() {
        return Ok(outcome);
    }
    format!(in alloc; "{outcome}{BAR}{mended}")
}

fn unread(alloc: Global) -> Result<String, AllocError> {
    String::from_str(alloc, "operands that can't be read")
}

fn untaken(alloc: Global) -> Result<String, AllocError> {
    String::from_str(alloc, "operands that aren't taken")
}

/// The first two fields of a row.
fn two_fields(row: &str) -> Option<(&str, &str)> {
    let (first, rest) = row.split_once(BAR)?;
    let (second, _) = rest.split_once(BAR)?;
    Some((first, second))
}

/// Two values.
fn two_values(
    alloc: Global,
    first: &str,
    second: &str,
) -> Result<Option<(Value, Value)>, AllocError> {
    match (reader::value(alloc, first)?, reader::value(alloc, second)?) {
        (Some(a), Some(b)) => Ok(Some((a, b))),
        _ => Ok(None),
    }
}

fn of_one(alloc: Global, op: Op1, row: &str) -> Result<String, AllocError> {
    let Some((operand, _)) = row.split_once(BAR) else {
        return unread(alloc);
    };
    let Some(a) = reader::value(alloc, operand)? else {
        return unread(alloc);
    };
    if !takes(op, &a) {
        return untaken(alloc);
    }
    let end = ended(alloc, &apply1(op, &a), &mend1(op, &a))?;
    format!(in alloc; "{operand}{BAR}{end}")
}

fn of_two(alloc: Global, op: Op2, row: &str) -> Result<String, AllocError> {
    let Some((first, second)) = two_fields(row) else {
        return unread(alloc);
    };
    let Some((a, b)) = two_values(alloc, first, second)? else {
        return unread(alloc);
    };
    if !takes_both(op, &a, &b) {
        return untaken(alloc);
    }
    let end = ended(alloc, &apply2(op, &a, &b), &mend2(op, &a, &b))?;
    format!(in alloc; "{first}{BAR}{second}{BAR}{end}")
}

fn of_store(alloc: Global, row: &str) -> Result<String, AllocError> {
    let Some((first, second)) = two_fields(row) else {
        return unread(alloc);
    };
    let (Some(kind), Some(a)) = (reader::kind(first), reader::value(alloc, second)?) else {
        return unread(alloc);
    };
    if !is_storable(kind, &a) {
        return untaken(alloc);
    }
    let end = ended(alloc, &fit(kind, &a), &mend_fit(kind, &a))?;
    format!(in alloc; "{first}{BAR}{second}{BAR}{end}")
}

fn of_pick(alloc: Global, row: &str) -> Result<String, AllocError> {
    let Some((first, second)) = two_fields(row) else {
        return unread(alloc);
    };
    let (Some(part), Some(a)) = (reader::part(second), reader::value(alloc, first)?) else {
        return unread(alloc);
    };
    if !has_components(&a) {
        return untaken(alloc);
    }
    let end = ended(alloc, &pick(&a, part), &mend_pick(&a, part))?;
    format!(in alloc; "{first}{BAR}{second}{BAR}{end}")
}

/// A value, the part of it that is replaced, and by what.
fn of_patch(alloc: Global, row: &str) -> Result<String, AllocError> {
    let Some((first, rest)) = row.split_once(BAR) else {
        return unread(alloc);
    };
    let Some((second, third)) = two_fields(rest) else {
        return unread(alloc);
    };
    let Some(part) = reader::part(second) else {
        return unread(alloc);
    };
    let Some((a, new)) = two_values(alloc, first, third)? else {
        return unread(alloc);
    };
    if !takes_part(&a, &new) {
        return untaken(alloc);
    }
    let end = ended(alloc, &patch(&a, part, &new), &mend_patch(&a, part, &new))?;
    format!(in alloc; "{first}{BAR}{second}{BAR}{third}{BAR}{end}")
}

fn of_places(alloc: Global, row: &str) -> Result<String, AllocError> {
    let Some((operand, _)) = row.split_once(BAR) else {
        return unread(alloc);
    };
    let Some(a) = reader::value(alloc, operand)? else {
        return unread(alloc);
    };
    let count = place_count(&a);
    format!(in alloc; "{operand}{BAR}{count}")
}
