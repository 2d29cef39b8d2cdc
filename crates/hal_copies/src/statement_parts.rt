//! Copies of what stands in statements.

ghost use Rattle.std.specs.Prelude.{◌≡◌, IfOk};
ghost use Rattle.std.specs.Option.{option_map};
ghost use Rattle.hal_tree.specs.SeenStatements.{seen_cycle, seen_guard, seen_schedule, seen_span, seen_start};

use crate::expressions::{copy_expression, copy_expressions, copy_optional};
use crate::parts::both;
use hal_tree::{Cycle, Guard, Schedule, Span, Start};
use std::alloc::{AllocError, Global};

/// A guard like this one.
#[tactic(auto, using(hal_tree::proofs::MadeStatements::made_while, hal_tree::proofs::MadeStatements::made_until))]
pub(crate) fn copy_guard(alloc: Global, tree: &Guard) -> Result<Guard, AllocError>
    ensures { IfOk result (λ copied. seen_guard copied ≡ seen_guard tree.now) }
{
    match tree {
        Guard::While { place, condition } => Ok(Guard::While {
            place: *place,
            condition: copy_expression(alloc, condition)?,
        }),
        Guard::Until { place, condition } => Ok(Guard::Until {
            place: *place,
            condition: copy_expression(alloc, condition)?,
        }),
    }
}

/// A guard like this one, where there is one.
pub(crate) fn copy_optional_guard(
    alloc: Global,
    tree: &Option<Guard>,
) -> Result<Option<Guard>, AllocError>
    ensures { IfOk result (λ copied. option_map seen_guard copied ≡ option_map seen_guard tree.now) }
{
    match tree {
        None => Ok(None),
        Some(tree) => copy_guard(alloc, tree).map(Some),
    }
}

/// Values of a loop's variable like these.
#[tactic(auto, using(hal_tree::proofs::MadeStatements::made_range_span, hal_tree::proofs::MadeStatements::made_list_span))]
pub(crate) fn copy_span(alloc: Global, tree: &Span) -> Result<Span, AllocError>
    ensures { IfOk result (λ copied. seen_span copied ≡ seen_span tree.now) }
{
    match tree {
        Span::Range { first, last, step } => {
            let ends = both(copy_expression(alloc, first), copy_expression(alloc, last));
            let ((first, last), step) = both(ends, copy_optional(alloc, step))?;
            Ok(Span::Range { first, last, step })
        }
        Span::List { values } => Ok(Span::List {
            values: copy_expressions(alloc, values)?,
        }),
    }
}

/// A start like this one.
#[tactic(auto, using(hal_tree::proofs::MadeStatements::made_start_at, hal_tree::proofs::MadeStatements::made_start_in, hal_tree::proofs::MadeStatements::made_start_on))]
fn copy_start(alloc: Global, tree: &Start) -> Result<Start, AllocError>
    ensures { IfOk result (λ copied. seen_start copied ≡ seen_start tree.now) }
{
    match tree {
        Start::At { place, time } => Ok(Start::At {
            place: *place,
            time: copy_expression(alloc, time)?,
        }),
        Start::In { place, time } => Ok(Start::In {
            place: *place,
            time: copy_expression(alloc, time)?,
        }),
        Start::On { place, event } => Ok(Start::On {
            place: *place,
            event: copy_expression(alloc, event)?,
        }),
    }
}

/// A start like this one, where there is one.
fn copy_optional_start(alloc: Global, tree: &Option<Start>) -> Result<Option<Start>, AllocError>
    ensures { IfOk result (λ copied. option_map seen_start copied ≡ option_map seen_start tree.now) }
{
    match tree {
        None => Ok(None),
        Some(tree) => copy_start(alloc, tree).map(Some),
    }
}

/// A cycle like this one.
#[tactic(auto, using(hal_tree::proofs::MadeStatements::made_cycle, hal_tree::proofs::MadeStatements::made_cycle_every, hal_tree::proofs::MadeStatements::made_cycle_after))]
fn copy_cycle(alloc: Global, tree: &Cycle) -> Result<Cycle, AllocError>
    ensures { IfOk result (λ copied. seen_cycle copied ≡ seen_cycle tree.now) }
{
    match tree {
        Cycle::Repeat { place } => Ok(Cycle::Repeat { place: *place }),
        Cycle::Every { place, time } => Ok(Cycle::Every {
            place: *place,
            time: copy_expression(alloc, time)?,
        }),
        Cycle::After { place, time } => Ok(Cycle::After {
            place: *place,
            time: copy_expression(alloc, time)?,
        }),
    }
}

/// A cycle like this one, where there is one.
fn copy_optional_cycle(alloc: Global, tree: &Option<Cycle>) -> Result<Option<Cycle>, AllocError>
    ensures { IfOk result (λ copied. option_map seen_cycle copied ≡ option_map seen_cycle tree.now) }
{
    match tree {
        None => Ok(None),
        Some(tree) => copy_cycle(alloc, tree).map(Some),
    }
}

/// What SCHEDULE says, like this.
#[tactic(auto, using(hal_tree::proofs::MadeStatements::made_schedule))]
pub(crate) fn copy_schedule(alloc: Global, tree: &Schedule) -> Result<Schedule, AllocError>
    ensures { IfOk result (λ copied. seen_schedule copied ≡ seen_schedule tree.now) }
{
    let start = copy_optional_start(alloc, &tree.start);
    let begins = both(start, copy_optional(alloc, &tree.priority));
    let cycle = copy_optional_cycle(alloc, &tree.cycle);
    let goes_on = both(cycle, copy_optional_guard(alloc, &tree.guard));
    let ((start, priority), (cycle, guard)) = both(begins, goes_on)?;
    Ok(Schedule {
        name: tree.name,
        start,
        priority,
        dependent: tree.dependent,
        cycle,
        guard,
    })
}
