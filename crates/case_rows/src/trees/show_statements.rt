//! Statements as rows write them, their labels before them as `L: M:`. Kinds and their parts: `(null)`, `(assign [A B] 1)`, `(if A (null))`,
//! `(if A (null) else (null))`, `(do [(null)] end L)`, `(case K else (null) [(null)])`, `(loop while A [])`, `(for temporary K (to 1 9) [])`,
//! `(exit L)`, `(repeat)`, `(return A)`, `(call P [A] [B])` with arguments and receivers, `(read 5 A B)`, `(write 6 A B)`,
//! `(update [(null)] close U)`, `(schedule P)`, `(cancel P Q)`, `(terminate)`, `(wait 1)`, `(wait until 1)`, `(wait dependent)`, `(wait for E)`,
//! `(set E)`, `(priority of P 1)`, `(on $1:2 (null))`, `(on $1 ignore set E)`, `(off every)`, `(send 1:2)`.

use crate::trees::pen::Pen;
use crate::trees::show_expressions::{expression, expressions, reference, references};
use crate::trees::show_parts::{
    event, guard, numbered, optional_guard, response, schedule, selector, span,
};
use hal_base::Place;
use hal_tree::{Basic, EventChange, Expr, Group, Guard, Identifier, Reference, Span, Statement};

/// The labels of a statement.
fn labels(names: &[Identifier], pen: &mut Pen) {
    for name in names {
        pen.name(name);
        pen.tail(":");
    }
}

/// A statement.
#[cycle(showing_statements)]
pub(crate) fn statement(tree: &Statement, pen: &mut Pen) {
    labels(&tree.labels, pen);
    basic(&tree.basic, pen);
}

/// Statements in a list.
#[cycle(showing_statements)]
fn list(trees: &[Statement], pen: &mut Pen) {
    pen.open_list();
    for tree in trees {
        statement(tree, pen);
    }
    pen.close_list();
}

/// The statements of a group, and the name at its end.
#[cycle(showing_statements)]
fn group(tree: &Group, pen: &mut Pen) {
    list(&tree.statements, pen);
    pen.optional_name("end", &tree.end);
}

/// ELSE and a statement, or nothing.
#[cycle(showing_statements)]
fn alternative(tree: &Option<Box<Statement>>, pen: &mut Pen) {
    match tree {
        None => {}
        Some(inner) => {
            pen.word("else");
            statement(inner, pen);
        }
    }
}

/// A statement without its labels: IF, DO, or another one.
#[cycle(showing_statements)]
fn basic(tree: &Basic, pen: &mut Pen) {
    match tree {
        Basic::If {
            place,
            condition,
            consequence,
            alternative: other,
        } => {
            pen.open("if", *place);
            expression(condition, pen);
            statement(consequence, pen);
            alternative(other, pen);
        }
        Basic::Do {
            place,
            group: inner,
        } => {
            pen.open("do", *place);
            group(inner, pen);
        }
        _ => return other_group(tree, pen),
    }
    pen.close();
}

/// A DO with a head, or any statement but IF and DO.
#[cycle(showing_statements)]
fn other_group(tree: &Basic, pen: &mut Pen) {
    match tree {
        Basic::DoCase {
            place,
            selector: chosen,
            alternative: other,
            group: inner,
        } => {
            pen.open("case", *place);
            expression(chosen, pen);
            alternative(other, pen);
            group(inner, pen);
        }
        Basic::DoLoop {
            place,
            guard: how_long,
            group: inner,
        } => {
            pen.open("loop", *place);
            guard(how_long, pen);
            group(inner, pen);
        }
        Basic::DoFor {
            place,
            temporary,
            variable,
            span: values,
            guard: how_long,
            group: inner,
        } => {
            for_head(*place, *temporary, variable, values, how_long, pen);
            group(inner, pen);
        }
        _ => return other_holder(tree, pen),
    }
    pen.close();
}

/// A statement that holds other ones and is neither IF nor DO, or one that holds none.
#[cycle(showing_statements)]
fn other_holder(tree: &Basic, pen: &mut Pen) {
    match tree {
        Basic::Update { place, body, close } => {
            pen.open("update", *place);
            list(body, pen);
            pen.optional_name("close", close);
        }
        Basic::OnErrorStatement {
            place,
            selector: which,
            handler,
        } => {
            pen.open("on", *place);
            selector(which, pen);
            statement(handler, pen);
        }
        _ => return simple(tree, pen),
    }
    pen.close();
}

/// DO FOR without its group.
fn for_head(
    place: Place,
    temporary: bool,
    variable: &Identifier,
    values: &Span,
    how_long: &Option<Guard>,
    pen: &mut Pen,
) {
    pen.open("for", place);
    if temporary {
        pen.word("temporary");
    }
    pen.name(variable);
    span(values, pen);
    optional_guard(how_long, pen);
}

/// A statement that holds no other one.
fn simple(tree: &Basic, pen: &mut Pen) {
    match tree {
        Basic::Null { place } => pen.open("null", *place),
        Basic::Assignment {
            place,
            receivers,
            value,
        } => {
            pen.open("assign", *place);
            receiver_list(receivers, pen);
            expression(value, pen);
        }
        _ => return other_simple(tree, pen),
    }
    pen.close();
}

/// A statement that holds no other one and is neither null nor an assignment.
fn other_simple(tree: &Basic, pen: &mut Pen) {
    match tree {
        Basic::Exit { place, label } => label_jump("exit", *place, label, pen),
        Basic::Repeat { place, label } => label_jump("repeat", *place, label, pen),
        Basic::Return { place, value } => {
            pen.open("return", *place);
            if let Some(value) = value {
                expression(value, pen);
            }
        }
        Basic::Call {
            place,
            name,
            arguments,
            receivers,
        } => call(*place, name, arguments, receivers, pen),
        Basic::Read {
            place,
            channel,
            receivers,
        } => {
            pen.open("read", *place);
            expression(channel, pen);
            references(receivers, pen);
        }
        Basic::Write {
            place,
            channel,
            items,
        } => {
            pen.open("write", *place);
            expression(channel, pen);
            expressions(items, pen);
        }
        _ => return of_processes(tree, pen),
    }
    pen.close();
}

/// References in a list.
fn receiver_list(trees: &[Reference], pen: &mut Pen) {
    pen.open_list();
    for tree in trees {
        reference(tree, pen);
    }
    pen.close_list();
}

/// EXIT or REPEAT.
fn label_jump(kind: &str, place: Place, label: &Option<Identifier>, pen: &mut Pen) {
    pen.open(kind, place);
    match label {
        None => {}
        Some(label) => pen.name(label),
    }
}

/// CALL.
fn call(
    place: Place,
    name: &Identifier,
    arguments: &[Expr],
    receivers: &[Reference],
    pen: &mut Pen,
) {
    pen.open("call", place);
    pen.name(name);
    pen.open_list();
    expressions(arguments, pen);
    pen.close_list();
    receiver_list(receivers, pen);
}

/// A statement about processes, events and times, or errors.
fn of_processes(tree: &Basic, pen: &mut Pen) {
    match tree {
        Basic::Schedule {
            place,
            schedule: what,
        } => {
            pen.open("schedule", *place);
            schedule(what, pen);
        }
        Basic::Cancel { place, names } => {
            pen.open("cancel", *place);
            pen.names(names);
        }
        Basic::Terminate { place, names } => {
            pen.open("terminate", *place);
            pen.names(names);
        }
        Basic::Event(change) => {
            pen.word("(");
            pen.join();
            event(change, pen);
        }
        Basic::UpdatePriority {
            place,
            name,
            priority,
        } => {
            pen.open("priority", *place);
            pen.optional_name("of", name);
            expression(priority, pen);
        }
        _ => return wait(tree, pen),
    }
    pen.close();
}

/// WAIT, or a statement about errors.
fn wait(tree: &Basic, pen: &mut Pen) {
    match tree {
        Basic::Wait { place, time } => {
            pen.open("wait", *place);
            expression(time, pen);
        }
        Basic::WaitUntil { place, time } => {
            pen.open("wait", *place);
            pen.word("until");
            expression(time, pen);
        }
        Basic::WaitForDependent { place } => {
            pen.open("wait", *place);
            pen.word("dependent");
        }
        Basic::WaitFor { place, event: when } => {
            pen.open("wait", *place);
            pen.word("for");
            expression(when, pen);
        }
        _ => return of_errors(tree, pen),
    }
    pen.close();
}

/// AND and what happens to an event, or nothing.
fn optional_event(tree: &Option<EventChange>, pen: &mut Pen) {
    match tree {
        None => {}
        Some(change) => event(change, pen),
    }
}

/// A statement about errors.
fn of_errors(tree: &Basic, pen: &mut Pen) {
    match tree {
        Basic::OnErrorResponse {
            place,
            selector: which,
            response: what,
            event: change,
        } => {
            pen.open("on", *place);
            selector(which, pen);
            response(*what, pen);
            optional_event(change, pen);
        }
        Basic::OffError {
            place,
            selector: which,
        } => {
            pen.open("off", *place);
            selector(which, pen);
        }
        Basic::SendError {
            place,
            group_at,
            group: first,
            number_at,
            number,
        } => {
            pen.open("send", *place);
            numbered(*group_at, *first, pen);
            pen.tail(":");
            pen.join();
            numbered(*number_at, *number, pen);
        }
        _ => pen.word("(another statement"),
    }
    pen.close();
}
