//! Copies of statements.

ghost use Rattle.std.specs.Prelude.{◌≡◌, map, IfOk};
ghost use Rattle.std.specs.Option.{option_map};
ghost use Rattle.hal_grammar.specs.Statements.{DoFor};
ghost use Rattle.hal_tree.specs.SeenLeaves.{seen_name};
ghost use Rattle.hal_tree.specs.SeenStatements.{seen_alternative, seen_basic, seen_group, seen_guard, seen_span, seen_statement};

use crate::expressions::{copy_expression, copy_names, copy_optional};
use crate::parts::{both, boxed, with_next};
use crate::simple_statements::{copy_assignment, copy_call, copy_read, copy_write};
use crate::statement_parts::{copy_guard, copy_optional_guard, copy_schedule, copy_span};
use hal_base::Place;
use hal_tree::{Basic, Group, Guard, Identifier, Span, Statement};
use std::alloc::{AllocError, Global};

/// A statement like this one, or an error where there is no memory.
#[cycle(copying_statements)]
#[tactic(auto, using(hal_tree::proofs::MadeStatements::made_statement))]
pub fn copy_statement(alloc: Global, tree: &Statement) -> Result<Statement, AllocError>
    ensures { IfOk result (λ copied. seen_statement copied ≡ seen_statement tree.now) }
{
    let labels = copy_names(alloc, &tree.labels);
    let (labels, basic) = both(labels, copy_basic(alloc, &tree.basic))?;
    Ok(Statement { labels, basic })
}

/// Statements like these, or an error where there is no memory.
#[cycle(copying_statements)]
pub fn copy_statements(alloc: Global, trees: &[Statement]) -> Result<Vec<Statement>, AllocError>
    ensures { IfOk result (λ copied. map seen_statement copied.items ≡ map seen_statement trees.now) }
{
    let mut copied = Vec::new(alloc);
    for tree in trees {
        copied = with_next(copied, copy_statement(alloc, tree))?;
    }
    Ok(copied)
}

/// A statement like this one in a box.
#[cycle(copying_statements)]
fn copy_box(alloc: Global, tree: &Statement) -> Result<Box<Statement>, AllocError>
    ensures { IfOk result (λ copied. seen_statement copied.value ≡ seen_statement tree.now) }
{
    boxed(alloc, copy_statement(alloc, tree))
}

/// What stands after ELSE, where there is a statement.
#[cycle(copying_statements)]
fn copy_alternative(
    alloc: Global,
    tree: &Option<Box<Statement>>,
) -> Result<Option<Box<Statement>>, AllocError>
    ensures { IfOk result (λ copied. seen_alternative copied ≡ seen_alternative tree.now) }
{
    match tree {
        None => Ok(None),
        Some(tree) => copy_box(alloc, tree).map(Some),
    }
}

/// A group like this one.
#[cycle(copying_statements)]
#[tactic(auto, using(hal_tree::proofs::MadeStatements::made_group, hal_tree::proofs::MadeStatements::parts_of_group))]
fn copy_group(alloc: Global, tree: &Group) -> Result<Group, AllocError>
    ensures { IfOk result (λ copied. seen_group copied ≡ seen_group tree.now) }
{
    Ok(Group {
        statements: copy_statements(alloc, &tree.statements)?,
        end: tree.end,
    })
}

/// A DO FOR like this one.
#[cycle(copying_statements)]
#[tactic(auto, using(hal_tree::proofs::MadeStatements::made_do_for))]
fn copy_loop(
    alloc: Global,
    place: Place,
    temporary: bool,
    variable: Identifier,
    span: &Span,
    guard: &Option<Guard>,
    group: &Group,
) -> Result<Basic, AllocError>
    ensures { IfOk result (λ copied. seen_basic copied ≡ DoFor place temporary (seen_name variable) (seen_span span.now) (option_map seen_guard guard.now) (seen_group group.now)) }
{
    let values = both(copy_span(alloc, span), copy_optional_guard(alloc, guard));
    let ((span, guard), group) = both(values, copy_group(alloc, group))?;
    Ok(Basic::DoFor {
        place,
        temporary,
        variable,
        span,
        guard,
        group,
    })
}

/// A statement without labels like this one.
#[cycle(copying_statements)]
#[tactic(auto, using(hal_tree::proofs::MadeStatements::made_null, hal_tree::proofs::MadeStatements::made_assignment, hal_tree::proofs::MadeStatements::made_if, hal_tree::proofs::MadeStatements::made_do, hal_tree::proofs::MadeStatements::made_do_case, hal_tree::proofs::MadeStatements::made_do_loop, hal_tree::proofs::MadeStatements::made_do_for, hal_tree::proofs::MadeStatements::made_exit, hal_tree::proofs::MadeStatements::made_repeat, hal_tree::proofs::MadeStatements::made_return, hal_tree::proofs::MadeStatements::made_call_statement, hal_tree::proofs::MadeStatements::made_read, hal_tree::proofs::MadeStatements::made_write, hal_tree::proofs::MadeStatements::made_update, hal_tree::proofs::MadeStatements::made_schedule_statement, hal_tree::proofs::MadeStatements::made_cancel, hal_tree::proofs::MadeStatements::made_terminate, hal_tree::proofs::MadeStatements::made_wait, hal_tree::proofs::MadeStatements::made_wait_until, hal_tree::proofs::MadeStatements::made_wait_for_dependent, hal_tree::proofs::MadeStatements::made_wait_for, hal_tree::proofs::MadeStatements::made_event, hal_tree::proofs::MadeStatements::made_update_priority, hal_tree::proofs::MadeStatements::made_on_error_statement, hal_tree::proofs::MadeStatements::made_on_error_response, hal_tree::proofs::MadeStatements::made_off_error, hal_tree::proofs::MadeStatements::made_send_error))]
fn copy_basic(alloc: Global, tree: &Basic) -> Result<Basic, AllocError>
    ensures { IfOk result (λ copied. seen_basic copied ≡ seen_basic tree.now) }
{
    match tree {
        Basic::Null { place } => Ok(Basic::Null { place: *place }),
        Basic::Assignment {
            place,
            receivers,
            value,
        } => copy_assignment(alloc, *place, receivers, value),
        Basic::If {
            place,
            condition,
            consequence,
            alternative,
        } => {
            let consequence = copy_box(alloc, consequence);
            let branches = both(consequence, copy_alternative(alloc, alternative));
            let parts = both(copy_expression(alloc, condition), branches)?;
            let (condition, (consequence, alternative)) = parts;
            Ok(Basic::If {
                place: *place,
                condition,
                consequence,
                alternative,
            })
        }
        Basic::Do { place, group } => Ok(Basic::Do {
            place: *place,
            group: copy_group(alloc, group)?,
        }),
        Basic::DoCase {
            place,
            selector,
            alternative,
            group,
        } => {
            let selector = copy_expression(alloc, selector);
            let first = both(selector, copy_alternative(alloc, alternative));
            let ((selector, alternative), group) = both(first, copy_group(alloc, group))?;
            Ok(Basic::DoCase {
                place: *place,
                selector,
                alternative,
                group,
            })
        }
        Basic::DoLoop {
            place,
            guard,
            group,
        } => {
            let (guard, group) = both(copy_guard(alloc, guard), copy_group(alloc, group))?;
            Ok(Basic::DoLoop {
                place: *place,
                guard,
                group,
            })
        }
        Basic::DoFor {
            place,
            temporary,
            variable,
            span,
            guard,
            group,
        } => copy_loop(alloc, *place, *temporary, *variable, span, guard, group),
        Basic::Exit { place, label } => Ok(Basic::Exit {
            place: *place,
            label: *label,
        }),
        Basic::Repeat { place, label } => Ok(Basic::Repeat {
            place: *place,
            label: *label,
        }),
        Basic::Return { place, value } => Ok(Basic::Return {
            place: *place,
            value: copy_optional(alloc, value)?,
        }),
        Basic::Call {
            place,
            name,
            arguments,
            receivers,
        } => copy_call(alloc, *place, *name, arguments, receivers),
        Basic::Read {
            place,
            channel,
            receivers,
        } => copy_read(alloc, *place, channel, receivers),
        Basic::Write {
            place,
            channel,
            items,
        } => copy_write(alloc, *place, channel, items),
        Basic::Update { place, body, close } => Ok(Basic::Update {
            place: *place,
            body: copy_statements(alloc, body)?,
            close: *close,
        }),
        Basic::Schedule { place, schedule } => Ok(Basic::Schedule {
            place: *place,
            schedule: copy_schedule(alloc, schedule)?,
        }),
        Basic::Cancel { place, names } => Ok(Basic::Cancel {
            place: *place,
            names: copy_names(alloc, names)?,
        }),
        Basic::Terminate { place, names } => Ok(Basic::Terminate {
            place: *place,
            names: copy_names(alloc, names)?,
        }),
        Basic::Wait { place, time } => Ok(Basic::Wait {
            place: *place,
            time: copy_expression(alloc, time)?,
        }),
        Basic::WaitUntil { place, time } => Ok(Basic::WaitUntil {
            place: *place,
            time: copy_expression(alloc, time)?,
        }),
        Basic::WaitForDependent { place } => Ok(Basic::WaitForDependent { place: *place }),
        Basic::WaitFor { place, event } => Ok(Basic::WaitFor {
            place: *place,
            event: copy_expression(alloc, event)?,
        }),
        Basic::Event(event) => Ok(Basic::Event(*event)),
        Basic::UpdatePriority {
            place,
            name,
            priority,
        } => Ok(Basic::UpdatePriority {
            place: *place,
            name: *name,
            priority: copy_expression(alloc, priority)?,
        }),
        Basic::OnErrorStatement {
            place,
            selector,
            handler,
        } => Ok(Basic::OnErrorStatement {
            place: *place,
            selector: *selector,
            handler: copy_box(alloc, handler)?,
        }),
        Basic::OnErrorResponse {
            place,
            selector,
            response,
            event,
        } => Ok(Basic::OnErrorResponse {
            place: *place,
            selector: *selector,
            response: *response,
            event: *event,
        }),
        Basic::OffError { place, selector } => Ok(Basic::OffError {
            place: *place,
            selector: *selector,
        }),
        Basic::SendError {
            place,
            group_at,
            group,
            number_at,
            number,
        } => Ok(Basic::SendError {
            place: *place,
            group_at: *group_at,
            group: *group,
            number_at: *number_at,
            number: *number,
        }),
    }
}
