//! The phrases of statements.

ghost use Rattle.std.specs.Prelude.{◌≡◌, map, OnOk};
ghost use Rattle.hal_tree.specs.Rows.{statements};
ghost use Rattle.hal_tree.specs.SeenLeaves.{seen_name};
ghost use Rattle.hal_tree.specs.SeenStatements.{seen_alternative, seen_basic, seen_group, seen_statement};
ghost use Rattle.hal_phrases.specs.GatheredStatements.{gathered_alternative, gathered_basic, gathered_group, gathered_statement, gathered_statements};
ghost use Rattle.hal_phrases.specs.SeenPhrases.{seen_phrase};

use crate::around::Around;
use crate::expressions::gather_expression;
use crate::node::{Node, Phrase, grouped, push, updated};
use crate::role::Role;
use crate::simple_statements::{
    around_for, begin_for, begin_loop, gather_assignment, gather_call, gather_named,
    gather_priority, gather_read, gather_response, gather_return, gather_scheduled, gather_write,
};
use crate::statement_parts::{gather_close, gather_labels, gather_with};
use hal_tree::{Basic, Group, Identifier, Statement};
use std::alloc::AllocError;

/// Adds a statement's labels and the phrases of what they stand before.
#[cycle(statements)]
#[tactic(auto, using(hal_tree::proofs::MadeStatements::made_statement), unfolding(crate::specs::GatheredStatements::gathered_statement))]
pub(crate) fn gather_statement<'a>(
    into: &mut Vec<Phrase<'a>>,
    around: Around,
    tree: &'a Statement,
) -> Result<(), AllocError>
    ensures { OnOk result (map seen_phrase into.new.items ≡ gathered_statement (map seen_phrase into.old.items) around (seen_statement tree.now)) }
{
    gather_labels(into, around, &tree.labels)?;
    gather_basic(into, around, &tree.labels, &tree.basic)
}

/// Adds the phrases of statements one after another.
#[cycle(statements)]
#[tactic(auto, unfolding(crate::specs::GatheredStatements::gathered_statements, hal_tree::specs::Rows::statements))]
fn gather_statements<'a>(
    into: &mut Vec<Phrase<'a>>,
    around: Around,
    trees: &'a [Statement],
) -> Result<(), AllocError>
    ensures { OnOk result (map seen_phrase into.new.items ≡ gathered_statements (map seen_phrase into.old.items) around (statements (map seen_statement trees.now))) }
{
    for tree in trees {
        gather_statement(into, around, tree)?;
    }
    Ok(())
}

/// Adds the phrases of what stands after ELSE, if there is something.
#[cycle(statements)]
#[tactic(auto, unfolding(crate::specs::GatheredStatements::gathered_alternative))]
fn gather_alternative<'a>(
    into: &mut Vec<Phrase<'a>>,
    around: Around,
    tree: &'a Option<Box<Statement>>,
) -> Result<(), AllocError>
    ensures { OnOk result (map seen_phrase into.new.items ≡ gathered_alternative (map seen_phrase into.old.items) around (seen_alternative tree.now)) }
{
    match tree {
        None => Ok(()),
        Some(statement) => gather_statement(into, around, statement),
    }
}

/// Adds the phrases of the statements of a group, and the name after END.
#[cycle(statements)]
#[tactic(auto, using(hal_tree::proofs::MadeStatements::parts_of_group), unfolding(crate::specs::GatheredStatements::gathered_group))]
fn gather_group<'a>(
    into: &mut Vec<Phrase<'a>>,
    around: Around,
    tree: &'a Group,
) -> Result<(), AllocError>
    ensures { OnOk result (map seen_phrase into.new.items ≡ gathered_group (map seen_phrase into.old.items) around (seen_group tree.now)) }
{
    gather_statements(into, around, &tree.statements)?;
    gather_close(into, around, &tree.end)
}

/// Adds the phrases of a statement with these labels.
#[cycle(statements)]
#[tactic(auto, using(hal_tree::proofs::MadeStatements::made_null, hal_tree::proofs::MadeStatements::made_assignment, hal_tree::proofs::MadeStatements::made_if, hal_tree::proofs::MadeStatements::made_do, hal_tree::proofs::MadeStatements::made_do_case, hal_tree::proofs::MadeStatements::made_do_loop, hal_tree::proofs::MadeStatements::made_do_for, hal_tree::proofs::MadeStatements::made_exit, hal_tree::proofs::MadeStatements::made_repeat, hal_tree::proofs::MadeStatements::made_return, hal_tree::proofs::MadeStatements::made_call_statement, hal_tree::proofs::MadeStatements::made_read, hal_tree::proofs::MadeStatements::made_write, hal_tree::proofs::MadeStatements::made_update, hal_tree::proofs::MadeStatements::made_schedule_statement, hal_tree::proofs::MadeStatements::made_cancel, hal_tree::proofs::MadeStatements::made_terminate, hal_tree::proofs::MadeStatements::made_wait, hal_tree::proofs::MadeStatements::made_wait_until, hal_tree::proofs::MadeStatements::made_wait_for_dependent, hal_tree::proofs::MadeStatements::made_wait_for, hal_tree::proofs::MadeStatements::made_event, hal_tree::proofs::MadeStatements::made_update_priority, hal_tree::proofs::MadeStatements::made_on_error_statement, hal_tree::proofs::MadeStatements::made_on_error_response, hal_tree::proofs::MadeStatements::made_off_error, hal_tree::proofs::MadeStatements::made_send_error), unfolding(crate::specs::GatheredStatements::gathered_basic))]
fn gather_basic<'a>(
    into: &mut Vec<Phrase<'a>>,
    around: Around,
    labels: &'a [Identifier],
    tree: &'a Basic,
) -> Result<(), AllocError>
    ensures { OnOk result (map seen_phrase into.new.items ≡ gathered_basic (map seen_phrase into.old.items) around (map seen_name labels.now) (seen_basic tree.now)) }
{
    match tree {
        Basic::Null { place: _ } => Ok(()),
        Basic::Assignment {
            place: _,
            receivers,
            value,
        } => gather_assignment(into, around, receivers, value),
        Basic::If {
            place: _,
            condition,
            consequence,
            alternative,
        } => {
            gather_expression(into, around, Role::Condition, condition)?;
            gather_statement(into, around.inside(), consequence)?;
            gather_alternative(into, around.inside(), alternative)
        }
        Basic::Do { place: _, group } => {
            let inner = grouped(into, around);
            push(
                into,
                around,
                Node::Group {
                    labels,
                    looping: false,
                },
            )?;
            gather_group(into, inner, group)
        }
        Basic::DoCase {
            place: _,
            selector,
            alternative,
            group,
        } => {
            let inner = grouped(into, around);
            gather_with(
                into,
                around,
                Node::Group {
                    labels,
                    looping: false,
                },
                Role::Case,
                selector,
            )?;
            gather_alternative(into, inner, alternative)?;
            gather_group(into, inner, group)
        }
        Basic::DoLoop {
            place: _,
            guard,
            group,
        } => {
            let inner = grouped(into, around);
            begin_loop(into, around, labels, guard)?;
            gather_group(into, inner, group)
        }
        Basic::DoFor {
            place: _,
            temporary,
            variable,
            span,
            guard,
            group,
        } => {
            let inner = around_for(into, around, *temporary);
            begin_for(into, around, labels, *temporary, variable, span, guard)?;
            gather_group(into, inner, group)
        }
        Basic::Exit { place, label } => push(
            into,
            around,
            Node::Exit {
                place: *place,
                label,
            },
        ),
        Basic::Repeat { place, label } => push(
            into,
            around,
            Node::Repeat {
                place: *place,
                label,
            },
        ),
        Basic::Return { place, value } => gather_return(into, around, *place, value),
        Basic::Call {
            place: _,
            name,
            arguments,
            receivers,
        } => gather_call(into, around, name, arguments, receivers),
        Basic::Read {
            place,
            channel,
            receivers,
        } => gather_read(into, around, *place, channel, receivers),
        Basic::Write {
            place,
            channel,
            items,
        } => gather_write(into, around, *place, channel, items),
        Basic::Update { place, body, close } => {
            let inner = updated(into, around);
            push(
                into,
                around,
                Node::Update {
                    place: *place,
                    labels,
                },
            )?;
            gather_statements(into, inner, body)?;
            gather_close(into, inner, close)
        }
        Basic::Schedule { place, schedule } => gather_scheduled(into, around, *place, schedule),
        Basic::Cancel { place, names } => gather_named(into, around, *place, names),
        Basic::Terminate { place, names } => gather_named(into, around, *place, names),
        Basic::Wait { place, time } => {
            gather_with(
                into,
                around,
                Node::RealTime { place: *place },
                Role::Time,
                time,
            )
        }
        Basic::WaitUntil { place, time } => {
            gather_with(
                into,
                around,
                Node::RealTime { place: *place },
                Role::Time,
                time,
            )
        }
        Basic::WaitForDependent { place } => {
            push(into, around, Node::RealTime { place: *place })
        }
        Basic::WaitFor { place, event } => {
            gather_with(
                into,
                around,
                Node::RealTime { place: *place },
                Role::Event,
                event,
            )
        }
        Basic::Event(event) => push(into, around, Node::Event(event)),
        Basic::UpdatePriority {
            place,
            name,
            priority,
        } => gather_priority(into, around, *place, name, priority),
        Basic::OnErrorStatement {
            place,
            selector,
            handler,
        } => {
            push(
                into,
                around,
                Node::Handler {
                    place: *place,
                    selector,
                },
            )?;
            gather_statement(into, around.inside(), handler)
        }
        Basic::OnErrorResponse {
            place,
            selector,
            response: _,
            event,
        } => {
            let node = Node::Response {
                place: *place,
                selector,
            };
            gather_response(into, around, node, event)
        }
        Basic::OffError { place, selector } => {
            push(
                into,
                around,
                Node::OffError {
                    place: *place,
                    selector,
                },
            )
        }
        Basic::SendError {
            place: _,
            group_at,
            group,
            number_at,
            number,
        } => push(
            into,
            around,
            Node::SendError {
                group_at,
                group: *group,
                number_at,
                number: *number,
            },
        ),
    }
}
