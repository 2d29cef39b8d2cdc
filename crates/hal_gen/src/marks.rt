//! The numbers of the marks of a block: its groups, UPDATE blocks, statements of ON ERROR and real-time statements.

ghost use Rattle.std.specs.Prelude.{◌≡◌, suc, IfOk, map};
ghost use Rattle.hal_tree.specs.Rows.{statements};
ghost use Rattle.hal_tree.specs.SeenStatements.{seen_alternative, seen_basic, seen_group, seen_statement};
ghost use Rattle.hal_meaning.specs.Marks as marks;

use hal_tree::{Basic, Group, Statement};
use std::alloc::AllocError;

/// The number behind this one, or an error where there are more than memory has room for.
pub(crate) fn next(mark: usize) -> Result<usize, AllocError>
    ensures { IfOk result (λ following. following ≡ suc mark) }
{
    match mark.checked_add(1) {
        None => Err(AllocError),
        Some(following) => Ok(following),
    }
}

/// The number of the next mark behind a statement before which the next one has this number, or an error where there are more than memory has room for.
#[cycle(marks)]
#[tactic(auto, using(hal_tree::proofs::MadeStatements::made_statement))]
pub fn after_statement(tree: &Statement, mark: usize) -> Result<usize, AllocError>
    ensures { IfOk result (λ following. following ≡ marks.after_statement mark (seen_statement tree.now)) }
{
    after_basic(&tree.basic, mark)
}

/// The same of statements one after another.
#[cycle(marks)]
#[tactic(auto, unfolding(hal_tree::specs::Rows::statements))]
fn after_statements(trees: &[Statement], mark: usize) -> Result<usize, AllocError>
    ensures { IfOk result (λ following. following ≡ marks.after_statements mark (statements (map seen_statement trees.now))) }
{
    let mut following = mark;
    for tree in trees {
        following = after_statement(tree, following)?;
    }
    Ok(following)
}

/// The same of a group.
#[cycle(marks)]
#[tactic(auto, using(hal_tree::proofs::MadeStatements::parts_of_group))]
fn after_group(tree: &Group, mark: usize) -> Result<usize, AllocError>
    ensures { IfOk result (λ following. following ≡ marks.after_group mark (seen_group tree.now)) }
{
    after_statements(&tree.statements, mark)
}

/// The same of what stands after ELSE.
#[cycle(marks)]
pub(crate) fn after_alternative(
    tree: &Option<Box<Statement>>,
    mark: usize,
) -> Result<usize, AllocError>
    ensures { IfOk result (λ following. following ≡ marks.after_alternative mark (seen_alternative tree.now)) }
{
    match tree {
        None => Ok(mark),
        Some(statement) => after_statement(statement, mark),
    }
}

/// The same of a statement without labels.
#[cycle(marks)]
#[tactic(auto, using(hal_tree::proofs::MadeStatements::made_null, hal_tree::proofs::MadeStatements::made_assignment, hal_tree::proofs::MadeStatements::made_if, hal_tree::proofs::MadeStatements::made_do, hal_tree::proofs::MadeStatements::made_do_case, hal_tree::proofs::MadeStatements::made_do_loop, hal_tree::proofs::MadeStatements::made_do_for, hal_tree::proofs::MadeStatements::made_exit, hal_tree::proofs::MadeStatements::made_repeat, hal_tree::proofs::MadeStatements::made_return, hal_tree::proofs::MadeStatements::made_call_statement, hal_tree::proofs::MadeStatements::made_read, hal_tree::proofs::MadeStatements::made_write, hal_tree::proofs::MadeStatements::made_update, hal_tree::proofs::MadeStatements::made_schedule_statement, hal_tree::proofs::MadeStatements::made_cancel, hal_tree::proofs::MadeStatements::made_terminate, hal_tree::proofs::MadeStatements::made_wait, hal_tree::proofs::MadeStatements::made_wait_until, hal_tree::proofs::MadeStatements::made_wait_for_dependent, hal_tree::proofs::MadeStatements::made_wait_for, hal_tree::proofs::MadeStatements::made_event, hal_tree::proofs::MadeStatements::made_update_priority, hal_tree::proofs::MadeStatements::made_on_error_statement, hal_tree::proofs::MadeStatements::made_on_error_response, hal_tree::proofs::MadeStatements::made_off_error, hal_tree::proofs::MadeStatements::made_send_error))]
fn after_basic(tree: &Basic, mark: usize) -> Result<usize, AllocError>
    ensures { IfOk result (λ following. following ≡ marks.after_basic mark (seen_basic tree.now)) }
{
    match tree {
        Basic::If {
            place: _,
            condition: _,
            consequence,
            alternative,
        } => {
            let following = after_statement(consequence, mark)?;
            after_alternative(alternative, following)
        }
        Basic::Do { place: _, group } => after_group(group, next(mark)?),
        Basic::DoCase {
            place: _,
            selector: _,
            alternative,
            group,
        } => {
            let following = after_alternative(alternative, next(mark)?)?;
            after_group(group, following)
        }
        Basic::DoLoop {
            place: _,
            guard: _,
            group,
        } => after_group(group, next(mark)?),
        Basic::DoFor {
            place: _,
            temporary: _,
            variable: _,
            span: _,
            guard: _,
            group,
        } => after_group(group, next(mark)?),
        Basic::Update {
            place: _,
            body,
            close: _,
        } => after_statements(body, next(mark)?),
        Basic::OnErrorStatement {
            place: _,
            selector: _,
            handler,
        } => after_statement(handler, next(mark)?),
        Basic::Schedule { .. } => next(mark),
        Basic::Cancel { .. } => next(mark),
        Basic::Terminate { .. } => next(mark),
        Basic::Wait { .. } => next(mark),
        Basic::WaitUntil { .. } => next(mark),
        Basic::WaitForDependent { .. } => next(mark),
        Basic::WaitFor { .. } => next(mark),
        Basic::UpdatePriority { .. } => next(mark),
        Basic::Null { .. } => Ok(mark),
        Basic::Assignment { .. } => Ok(mark),
        Basic::Exit { .. } => Ok(mark),
        Basic::Repeat { .. } => Ok(mark),
        Basic::Return { .. } => Ok(mark),
        Basic::Call { .. } => Ok(mark),
        Basic::Read { .. } => Ok(mark),
        Basic::Write { .. } => Ok(mark),
        Basic::Event(_) => Ok(mark),
        Basic::OnErrorResponse { .. } => Ok(mark),
        Basic::OffError { .. } => Ok(mark),
        Basic::SendError { .. } => Ok(mark),
    }
}
